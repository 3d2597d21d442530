//! The configuration of a channel, which a book and its overlays share.

ghost use Rattle.std.specs.Prelude.{◌≡◌, IfOk};

use minislots::Checked;
use std::alloc::{AllocError, Global};
use std::marker::Model;
use std::sync::Arc;

// The configuration of a channel. A copy of it is another owner.
#[derive(Drop)]
pub(crate) struct Channel {
    config: Arc<Checked>,
}

impl Model for Channel {
    ghost use Rattle.minislots.specs.declared.config.Config.{Config};

    ghost Value = { Config };

    ghost view = { λ c. c.config.value };
}

impl Channel {
    // That of this configuration.
    pub(crate) fn of(alloc: Global, config: Checked) -> Result<Channel, AllocError>
        ensures { IfOk result (λ channel. channel ≡ config) }
    {
        Ok(Channel {
            config: Arc::new(alloc, config)?,
        })
    }

    // The same channel again.
    pub(crate) fn again(&self) -> Result<Channel, AllocError>
        ensures { IfOk result (λ channel. channel ≡ self.now) }
    {
        Ok(Channel {
            config: Arc::try_clone(&self.config)?,
        })
    }

    // Its configuration.
    pub(crate) fn config(&self) -> &Checked
        ensures { result.now ≡ self.now }
    {
        &self.config
    }
}
