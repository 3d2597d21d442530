//! What the help says beside the commands and their options.

/// The version of the program, which the file VERSION at the top has too.
pub const VERSION: &str = "0.2.0";

/// The exit statuses.
pub const STATUSES: &str = "Exit statuses:
  0  done
  1  the text is no payload of a MAP and no frame, or the history is illegal
  2  the command line is wrong
  3  the input is wrong: `input failed`, `input too long` (above 16777216 bytes),
     `not json`, `bad script at N` (0: the document or its configuration, else
     the call or entry, from 1), `bad config N` (the field's number in README.md);
     `mapsched check` shows where the fault is, and what was expected there; a
     second line says so, or what the input is where another command reads it
  4  the machine failed: `out of memory`, `output failed`, `no thread`; the journal
     of `live` failed, is in use, or was changed by another program

`mapsched help COMMAND` shows what a command reads and prints, with an example.";

/// The command that runs a script.
pub const RUN: &str =
    r#"Reads from standard input or FILE, in JSON: {"config": {..}, "calls": [..]}.
docs/REFERENCE.md has the fields of the configuration and of each call.

Prints a line for each call, in order: `admitted` or `changed` (and the places of a
periodic flow), `removed`, `taken`, `noted`, `reserved`, `map` and the payload in
hexadecimal, `skipped` and the start of the next frame, `flow` and the bytes asked,
granted and outstanding; `refused`, a number and a value; or `history full` or `out
of memory`, where the call was not recorded. With --explain the meaning of a refusal
follows it:
  refused 12 800  # too far: the next frame starts at 800, and what is heard must
  lie before it
With --history calls that were not recorded are left out, and standard error says
how many; the same holds for --journal, which prints the same history in lines: the
first is {"config": {..}}, and each later one an entry. With --frames `map` is
followed by the whole MAC management message, from the address 02:00:00:00:00:01,
in place of its payload.

Exit statuses: 0, or 2 for the command line, 3 for the input, 4 for the machine.
Where a script is bad, `mapsched check` shows where, and what was expected there.

Example:
  ./mapsched run < examples/two_maps.json"#;

/// The command that writes a capture.
pub const PCAP: &str =
    r#"Reads from standard input or FILE what `run` reads: {"config": {..}, "calls": [..]}.

Writes a capture in the classic form of pcap with nanoseconds, link type DOCSIS
(143): put it into a file, and open that in Wireshark. It is not written to a terminal.
It has the MAC management message of each MAP, at the time at which its frame starts,
counted from minislot 0.
Standard error says how many calls were not recorded.

--mac 02:00:00:00:00:01 is the sender's address, six bytes in hexadecimal.

With --journal it reads a journal as `run --journal` prints it, of any length, line
by line, and judges each entry as `audit` does. The capture ends before the first
line that is wrong, and standard error names it: `illegal` and the entry, or
`bad journal at` and the line, counted from 0. Bytes after the last newline are
ignored: standard error says `torn` and how many.

Exit statuses: 0, 1 an illegal journal, 2 for the command line, 3 for the input, 4
for the machine.

Example:
  ./mapsched pcap < examples/two_maps.json"#;

/// The command that shows a payload.
pub const DECODE: &str =
    "Reads one word: the payload after the MAC management header, in hexadecimal digits
of either case; or, where the word is -, lines of standard input.

Prints the channel, the times and a line for each element: SID, usage code,
offset in minislots, usage. A text that is no payload gives one line: `fault hex`,
or `fault` and a number (1 short, 2 above 240 elements, 3 wrong length, 4 an
expansion, 5 offsets that descend, 6 no Null, 7 a second Null), for 4, 5 and 7
with the element, counted from 0. With --explain a second line says what it means.

With --json it prints one line of JSON, an object: the fields of the MAP and its
elements, of a frame the addresses too; the SID and the number of a request; or the
fault, with its number, its place and what it means. With - it prints such a line for
each line that is decoded, a wrong one too, with its number, counted from 1.

With --frame the word is a whole frame. That of a MAP, the MAC management message,
has a line `frame map` with the sender's address, and then the payload's table; a
request frame `frame request`, the SID and the minislots; a queue-depth request frame
`frame queue`, the SID and the number. Other bytes have the payload's fault, or
`fault frame` and the first of these: 1 length, 2 kind, 3 SID above 14 bits, 4 header
check sequence, 5 CRC, 6 a field of the management header.

With - each line is decoded, a payload or the line that `run` or `live` prints for a
MAP; empty lines and their other answers are passed over. An empty line stands between
what is shown of two. What is wrong is told on standard error, behind the number of
the line, counted from 1, as `line 3: fault hex`, or `fault long` above 65536 bytes;
the other lines are decoded all the same.

Usage codes (IUC):
  1  request: where modems may ask; for one modem, a poll
  2  request_data: requests, or short data
  3  initial: initial maintenance
  4  station: station maintenance
  5  short: short data grant
  6  long: long data grant; to SID 0, idle; after the Null, pending
  7  null: the end of the frame
  8  data_ack: data acknowledge
  9  aphy_short: advanced PHY, short data grant
 10  aphy_long: advanced PHY, long data grant
 11  aphy_ug: advanced PHY, unsolicited grant

Exit statuses: 0 a payload or frame, 1 none, or none in some line, 2 for the command
line, 3 for the input, 4 for the machine.

Example:
  ./mapsched decode --draw 03010300000003200000032000000000fffc4000000180040001c028";

/// The command that runs scripts at the same time.
pub const STORM: &str =
    r#"Reads from standard input or FILE, in JSON: {"config": {..}, "scripts": [[..], ..]},
1 to 16 arrays of calls, each for a thread of its own under the lock.

Prints `seat`, its number and how many of its calls were recorded, for each
script; `unrecorded` and how many were not; `maps` and how many the history has;
`newest` and the version of the MAP that a reader reads at the end, or `none`;
last `audit legal`, the verdict on the history.

Exit statuses: 0, or 2 for the command line, 3 for the input, 4 for the machine.
Where a script is bad, `mapsched check` shows where, and what was expected there.

Example:
  ./mapsched storm < examples/two_workers.json"#;

/// The command that judges a history.
pub const AUDIT: &str =
    r#"Reads from standard input or FILE, in JSON, a history as `run --history` prints it:
{"config": {..}, "entries": [{"seat", "ticket", "call": {..}, "reply": {..}}, ..]}.
Whoever wrote it, each reply is tried against all that may follow the entries
before it. With --journal it reads a journal as `run --journal` prints it, of any
length, line by line: bytes after the last newline are ignored, and standard
error says `torn` and how many.

Prints `legal` and the number of entries, or `illegal` and the first entry that
no lawful scheduler could have answered, counted from 0. With --explain the call
of that entry follows `illegal`, then what was expected, and what was found: a MAP
with the 64 bits of its times, its table and the bytes that it grants. A > marks the
first line that differs, before the elements and from them on. Of lawful placements
one is shown.

With --json it prints the verdict in one line of JSON: {"entries":4,"legal":true}, of
a journal with "torn" too, the bytes after its last newline; or
{"illegal":3,"legal":false}.

Exit statuses: 0 legal, 1 illegal, 2 for the command line, 3 for the input (of a
journal `bad journal at N`, the line, counted from 0), 4 for the machine. Where a
history is bad, `mapsched check` shows where.

Example:
  ./mapsched audit < examples/two_maps_history.json"#;

/// The command that tells how a channel did.
pub const REPORT: &str =
    r#"Reads from standard input or FILE, in JSON, a history as `run --history` prints it,
and audits it as `audit` does: of an illegal one it prints what `audit` prints.

Reports on the channel: what its minislots were for, the calls and the
refusals by their number; for each rank and each life of a flow the requests, how
many wait, how many were dropped because the flow was removed, and how long those
took that were served, from where each was heard to the end of the grant with
which its last byte was granted. Delays are in milliseconds, rates in bits per
second; a number without room is printed in thousands (k), millions (M) and so on,
and - means none. Of more than 30 lives it prints those that asked most; with --all
it prints all, in the order of their admissions. With --json it prints the same
numbers in one line of JSON, with delays in minislots; with --openmetrics these and some
more in that text format, with times in seconds; with --svg a picture of them, the use of
minislots over time and the delays by rank.
docs/REPORT.md has each number in a line.

With --from and --to it tells of a part of the history alone: of the entries at whose
time the next frame started so many milliseconds after the configuration's start, or
later, and earlier than the end. The flows that live then keep the bytes that are
outstanding; their requests of before are not told of. Entries from the end on are not
judged.

With --every it tells of one such part after the other, from each multiple of so many
milliseconds to the next, as soon as each is over: with --json in a line for each, else
in tables under a line `from` with the millisecond with which the part begins. A part
without entries is left out. What is illegal or bad is told behind the parts before it.

With --journal it reads a journal as `run --journal` prints it, of any length, line
by line, and reports on it as on that history: standard error names bytes after
the last newline, which are ignored (`torn` and how many), and a line that
is no entry (`bad journal at` and the line, counted from 0; nothing is printed, but with
--every the parts before it).

Exit statuses: 0, or 1 illegal, 2 for the command line, 3 for the input, 4 for the
machine.

Example:
  ./mapsched report < examples/two_maps_history.json"#;

/// The command that tells what is wrong in a file.
pub const CHECK: &str =
    r#"Reads from standard input or FILE a script, the script of a storm or a history: by its
member `calls`, `scripts` or `entries`; or a journal or the lines for `live`, of
any length: by the line after the configuration.

Prints one line, `good script`, `good script of a storm` or `good history`, or
the fault by which `run`, `storm` or `audit` would end; then where the fault is
and what is expected there, or what the file has; and the keys that nobody reads.
Of a configuration with `bursts` it says when no data grant is short, and when a
request by the profile `request` does not fit a poll or the request region, and of
`settle` when it is shorter than 1.5 milliseconds.
`run --explain` shows whether calls are refused, and `audit` whether a history is
legal.

For a journal it prints `good journal`, or what `audit --journal` prints, and which
line is wrong; for the lines of `live`, `good live input` or how many of them would
be answered `bad line`, and which these are. Lines are counted from 1.

With --json it prints the same in one line of JSON, an object: "good", which is true
or false, "kind", and the fault, with its number, its line and words on it.

Exit statuses: 0 good, or lines for `live` after a good configuration, 1 for an
illegal journal, 2 for the command line, 3 for the input, 4 for the machine.

Example:
  ./mapsched check < examples/two_maps.json"#;

/// The command that draws the frames of a run.
pub const DRAW: &str =
    r#"Reads from standard input or FILE what `run` reads: {"config": {..}, "calls": [..]}; or
else the history that `run --history` printed, which is drawn as it is.

Prints one picture in SVG: put it into a file, and open that in a browser. Each
MAP of the run has a row: before it the number of its frame, counted from 0, and
the minislot and the millisecond at which the frame starts; in it a box for each
allocation, from its offset on and as wide as it is long. Above each 40 rows are
the minislots and milliseconds of a frame, and what the colours and patterns are
for. A grant to an unsolicited flow is drawn as such on every channel. The boxes of
a SID have a shade of their own: those of 64 SIDs in a row are all different. The
SID is on a box where there is room, and pointing at the box shows the SID, the
usage, the offset and the length in minislots, and how many bytes of requests it
grants (0 where it grants none). A dashed line above a row stands for frames that
were skipped right before it, and `left out:` tells how many.

--from 100 --count 40 draws the frames 100 to 139 alone, with their own numbers.

With --journal it reads a journal as `run --journal` prints it, of any length where
up to 16777216 entries stand from the first frame that is drawn to the last one, and
draws those before the first line that is wrong, which standard error names as with
`pcap --journal`.

Exit statuses: 0, 1 an illegal journal, 2 for the command line, 3 for the input, 4
for the machine.
Nothing is printed if memory runs out.

Example:
  ./mapsched draw < examples/all_kinds.json"#;

/// The command that is talked to.
pub const LIVE: &str =
    r#"Reads from standard input line by line: first {"config": {..}}, then a call in
each line, as in the `calls` of a script. Lines of white space alone are skipped.
There is no limit to the number of lines.

Prints for each call the line that `run` prints, and prints all answers before
it waits for more input: who writes one call and waits for its answer gets it. A
line that is no call changes nothing, and one of these is its answer:
  bad line long    it has more than 65536 bytes
  bad line json    it is not JSON
  bad line shape   it is JSON, but no call
`calls` of the configuration does not end it: what was recorded is let go. With
--explain the meaning of a refusal follows it, and with --frames the whole frame of a
MAP follows `map`, as in `run`.
The line {"stats":true} is no call: it is answered by the numbers of the conversation
in JSON, and is not recorded.

With --journal each call is recorded in FILE before its answer is written, and a
journal that is in FILE already is continued: then the first line may be left out.
Standard error says `resumed` and how many entries there were, and `cut` and how
many bytes of a torn line at the end. With --sync an answer is written only when its
entry has reached the device.

Exit statuses: 0 where the input has ended, 2 for the command line, 3 for the first
line (`other config`: the journal has another one), for a failed read, or for the
journal (`bad journal at N`, the line, counted from 0), 4 for the machine (`journal
failed`, `journal in use` where another program has it, and `journal changed` where
one changed it). docs/LIVE.md shows a conversation.

Example:
  ./mapsched live < examples/live.txt"#;

/// The command that counts bursts.
pub const BURSTS: &str =
    r#"Reads from standard input a script, the script of a storm, a history or any other
document {"config": {..}, ..} in JSON, of which it looks at the configuration alone.

Prints a line for bursts of 64, 128, 256, 512, 1024 and 1522 bytes, and of each
number of bytes that is a word of the command line (from 1 to 1048560). Where the
configuration has `bursts`, first the minislots by the profiles of short, long and
unsolicited grants; then the usage that a data grant of so many bytes has, its
minislots, and its efficiency: how much its bytes are of the bits that its
minislots have in the modulation of its profile, preamble, guard time and parity
counted as lost. Without `bursts` a minislot has the bits of `bytes_per_slot`.

Where `bursts` has a lawful profile `request`, a line says what requests of 6 and of
7 bytes take. Last come the most bytes of a data grant of each number of minislots
up to `frame`, ten in a line.

With --json it prints the same in one line of JSON: `capacity` has the most bytes at
the place of the number of minislots, from 0 on, and `efficiency` is in hundredths
of a percent.

Exit statuses: 0, or 2 for the command line, 3 for the input, 4 for the machine.

Example:
  ./mapsched bursts 77 < examples/bursts.json"#;

/// The command that tells the state that a history leaves.
pub const STATE: &str =
    r#"Reads from standard input or FILE a script, a history as `run --history` prints it, or
a journal as `run --journal` prints it, of any length: whichever it is by its first
line, which of a journal is {"config": {..}}.

Prints the first line of a journal that could go on from there, a segment with the
state after all entries, on which every later reply depends:
{"segment": {"config": {..}, "crc": 12, "number": 2, "state": {..}}}
`crc` is the CRC-32 of the text of the state. With --explain it prints the state as a
table: times and header, the flows with their bytes, what is left of their bursts at
the start of their last grants, the requests that wait, the places of periodic flows,
and the Reserves that wait.

Of an illegal history or journal it prints what `audit` prints. Bytes after the last
newline of a journal are ignored: standard error says `torn` and how many; and it says
how many calls of a script were not recorded. A segment itself is not read yet.

Exit statuses: 0, 1 illegal, 2 for the command line, 3 for the input (of a journal
`bad journal at N`, the line, counted from 0), 4 for the machine.

Example:
  ./mapsched state < examples/two_maps.json"#;
