//! The channel that a document is about: its configuration, and the burst profile of requests that stands beside it.

ghost use Rattle.std.specs.Prelude.{◌≡◌, IfOk, IfErr};
ghost use Rattle.text_stream.specs.Input.{Gives};
ghost use Rattle.text_stream.specs.Watched.{FailsBy};
ghost use Rattle.json_fields.specs.Fields.{profile_of};
ghost use Rattle.serde_json.specs.View.{view};
ghost use Rattle.bursts_command.specs.Channel.{request_of, channel_of, channel_in, GivesChannel, StopsChannel};

use json_fields::{Tree, config_in, member, number_u32};
use minislots::{Checked, Profile};
use serde_json::Value;
use std::alloc::Global;
use text_stream::{Source, TextFault, parse, read_all};

/// A channel of which bursts are counted.
#[derive(Clone, Copy, Debug)]
pub struct Channel {
    /// Its configuration.
    pub config: Checked,
    /// The burst profile of requests, where one stands in its burst descriptors. It may not be lawful.
    pub request: Option<Profile>,
}

// The burst profile that an object stands for: each member is there, and fits its type.
#[tactic(auto, unfolding(json_fields::specs::Fields::profile_of))]
fn profile_of<T: Tree>(value: &T) -> Option<Profile>
    ensures { result ≡ profile_of (T.shown value.now) }
{
    Some(Profile {
        preamble: number_u32(value, "preamble")?,
        guard: number_u32(value, "guard")?,
        bits: number_u32(value, "bits")?,
        parity: number_u32(value, "parity")?,
        information: number_u32(value, "information")?,
        shortened: number_u32(value, "shortened")?,
    })
}

/// The burst profile of requests that stands among the burst descriptors of a document's configuration, where there is
/// one. The scheduler does not read it.
#[tactic(auto, unfolding(crate::specs::Channel::request_of))]
pub fn request_of<T: Tree>(document: &T) -> Option<Profile>
    ensures { result ≡ request_of (T.shown document.now) }
{
    let bursts = member(member(document, "config")?, "bursts")?;
    profile_of(member(bursts, "request")?)
}

/// The channel of a document, whose configuration stands under `config`. Other members are not looked at.
#[tactic(auto, unfolding(crate::specs::Channel::channel_of))]
pub fn channel_of(document: &Value) -> Result<Channel, TextFault>
    ensures { result ≡ channel_of (view document.now) }
{
    let Some(config) = config_in(document) else {
        return Err(TextFault::Shape(0));
    };
    Ok(Channel {
        config: config.check()?,
        request: request_of(document),
    })
}

// The channel of the document that bytes are the text of.
#[tactic(auto, unfolding(crate::specs::Channel::channel_in))]
fn channel_in(alloc: Global, bytes: &[u8]) -> Result<Channel, TextFault>
    ensures { Gives (λ channel. channel) result (channel_in bytes.now) }
{
    let document = parse(alloc, bytes)?;
    channel_of(&document)
}

/// The channel of the document in a reader, of which all bytes are read.
pub(crate) fn read_channel<R: Source>(alloc: Global, reader: &mut R) -> Result<Channel, TextFault>
    ensures ok { IfOk result (λ channel.
        GivesChannel (R.remaining reader.old) (R.remaining reader.new) (Ok channel)) }
    ensures stops { IfErr result
        (StopsChannel (R.remaining reader.old) (R.remaining reader.new)) }
    ensures failed { FailsBy TextFault.Input result
        (R.has_failed reader.old) (R.has_failed reader.new) }
{
    let bytes = read_all(alloc, reader)?;
    channel_in(alloc, &bytes)
}
