//! What the program is, and which version.

/// A line for each command.
pub const COMMANDS: &str = "usage: propane COMMAND WORDS

Propane compiles one network-wide policy over paths into one BGP configuration
for each router, which keeps the policy whatever links and routers fail.

commands
  compile    write the configuration that keeps a policy
  evidence   write the evidence that this configuration keeps it
  check      tell whether evidence shows that a configuration keeps a policy
  explain    tell whether a policy is accepted, or why it is refused
  replay     tell what the network settles to when something fails
  trace      tell what the network holds after a list of events
  sample     compile a data centre of a given size, and tell how large all is
  migrate    write a configuration of the first edition in the second
  impact     tell what each single dead link or router changes for a prefix
  routemap   write the configuration as route maps over prefix lists
  checkmap   tell whether route maps are those of a configuration
  lint       name the parts of a policy that can never matter
  audit      tell whether recorded routes are stable and right
  help       write these lines, or how one command is used
  version    write the version of the program
  drain      tell which links and routers carry nothing for a prefix
  settle     tell what the network comes to rest in after a list of events
  promises   tell what a policy promises, to whom, and to whom not
  whatif     tell what one more dead link or router changes, from here
  multipath  tell where packets go if routers spread them over equal routes
  maps       write any configuration as route maps over prefix lists
  between    write a configuration on the way from an old one to a new one
  renew      write a configuration that may take over from an old one
  renewal    write the evidence for what renew writes
  waiting    tell which messages wait after a list of events
  compare    tell what a new policy changes, for whom, and which walks show it

propane help COMMAND writes how a command is used. Words that are no command
end with status 2 and one line on the error output.
";

/// What is said of words that are no command: each command with the names of what it reads.
pub const USAGE: &[u8] =
    b"propane: usage: compile TOPO POLICY, evidence TOPO POLICY, check TOPO POLICY CONFIG EVIDENCE, explain TOPO POLICY, replay TOPO POLICY SCENARIO, trace TOPO POLICY EVENTS, sample N, migrate CONFIG, impact TOPO POLICY PREFIX, routemap TOPO POLICY, checkmap CONFIG MAPS, lint TOPO POLICY, audit TOPO POLICY CONFIG EVIDENCE SCENARIO TABLES, help [COMMAND], version, drain TOPO POLICY SCENARIO, settle TOPO POLICY EVENTS, promises TOPO POLICY, whatif TOPO POLICY SCENARIO, multipath TOPO POLICY SCENARIO, maps CONFIG, between BEFORE AFTER STAGE, renew TOPO POLICY CONFIG [EVIDENCE], renewal TOPO POLICY CONFIG [EVIDENCE], waiting TOPO POLICY EVENTS, compare TOPO OLD NEW\n";

/// How `help` is used.
pub const HELP: &str = "usage: propane help [COMMAND]

Writes a line for each command with what it is for; or of one command its
words, what it reads and writes, its statuses and an example. The words --help
and -h mean the same as help.

reads
  nothing

writes
  output        the text
  error output  on status 2 the usage line

status
  0  the text is written
  2  COMMAND is no command
  5  the output, or the line, cannot be written whole
  6  memory is refused; nothing is written

example
  propane help compile
";

/// How `version` is used.
pub const VERSION_PAGE: &str = "usage: propane version

Writes the name of the program and its version, and in a second line the kit
with which its sources were last proved. The word --version means the same as
version.

reads
  nothing

writes
  output        two lines

status
  0  the lines are written
  5  the output cannot be written whole
  6  memory is refused; nothing is written

example
  propane version
";

/// The name, the version and the kit.
pub const VERSION: &str = "propane 2.0.0
kit rattle-kit-13f
";
