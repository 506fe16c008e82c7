//! The commands that write a configuration, or what comes with one.

/// How `compile` is used.
pub const COMPILE: &str = "usage: propane compile TOPO POLICY

Compiles the policy into one BGP configuration for each router. On status 0 the
configuration keeps the policy: whatever routers, links and peer sessions fail,
in every stable outcome of BGP each path that a claimed source uses or a peer is
offered is allowed, and each claimed source has the best rank among the allowed
paths that survive. Otherwise the policy is refused, with the reason.

reads
  TOPO    a topology text: routers, peers and links
  POLICY  a policy text for that network

writes
  output        the configuration text, a block for each router
  error output  on status 1, 3 and 4 one line that says why

status
  0  the configuration is written
  1  the policy is refused
  3  an input is too long, or no text of its kind
  4  an input cannot be read
  5  the output, or the line, cannot be written whole
  6  memory is refused; nothing is written

example
  cd examples/two-exits
  propane compile topology.json policy.propane
";

/// How `evidence` is used.
pub const EVIDENCE: &str = "usage: propane evidence TOPO POLICY

Compiles the policy as compile does, and writes the evidence that the
configuration keeps it: for each case of the policy a graph of nodes and steps,
each node with its rank, its preference and its tag. It passes check with what
compile writes of the same texts.

reads
  TOPO    a topology text: routers, peers and links
  POLICY  a policy text for that network

writes
  output        the evidence text, one line of JSON
  error output  on status 1, 3 and 4 one line that says why

status
  0  the evidence is written
  1  the policy is refused
  3  an input is too long, or no text of its kind
  4  an input cannot be read
  5  the output, or the line, cannot be written whole
  6  memory is refused; nothing is written

example
  cd examples/two-exits
  propane evidence topology.json policy.propane
";

/// How `routemap` is used.
pub const ROUTEMAP: &str = "usage: propane routemap TOPO POLICY

Compiles the policy, and writes the configuration as numbered entries over
prefix lists, the way route maps say it. They make of every prefix and every
route what the configuration makes of it. A text of more than 1,000,000 lines is
refused.

reads
  TOPO    a topology text: routers, peers and links
  POLICY  a policy text for that network

writes
  output        the maps text, a block for each router
  error output  on status 1, 3 and 4 one line that says why

status
  0  the maps are written
  1  the policy is refused, or the maps have too many lines
  3  an input is too long, or no text of its kind
  4  an input cannot be read
  5  the output, or the line, cannot be written whole
  6  memory is refused; nothing is written

example
  cd examples/two-exits
  propane routemap topology.json policy.propane
";

/// How `between` is used.
pub const BETWEEN: &str = "usage: propane between BEFORE AFTER STAGE

Writes a configuration on the way from an old one to a new one, for a network
that runs. Stage 1 has the lines of both and begins routes as the old one does;
stage 2 has the lines of both and begins routes as the new one does. Load stage
1 everywhere, then stage 2 everywhere, and once nothing waits the new one. Both
must be of the same routers with the same neighbours. Where two classes share a
prefix and their lines aren't the same, no tag may stand in both, and the new
preferences must be above the old ones, as those that are renewed are.

reads
  BEFORE  the old configuration's text, of the second edition
  AFTER   the new configuration's text, of the second edition
  STAGE   1 or 2; this is no name of a file

writes
  output        the text of the stage; on status 7 a line of what is in the way
  error output  on status 1, 3 and 4 one line that says why

status
  0  the stage is written
  1  the stage would have too many lines
  3  an input is too long, or no text of the second edition
  4  an input cannot be read
  5  the output, or the line, cannot be written whole
  6  memory is refused; nothing is written
  7  the two cannot be mixed

example
  cd examples/two-exits
  propane between compile.stdout renewed-config.txt 1
";

/// How `maps` is used.
pub const MAPS: &str = "usage: propane maps CONFIG

Writes a configuration as numbered entries over prefix lists, the way route maps
say it. They make of every prefix and every route what the configuration makes
of it. routemap does so with what it compiles; maps takes any configuration, as
one between two policies. A text of more than 1,000,000 lines is refused.

reads
  CONFIG  a configuration text of the second edition

writes
  output        the maps text, a block for each router
  error output  on status 1, 3 and 4 one line that says why

status
  0  the maps are written
  1  the maps have too many lines
  3  the input is too long, or no text of the second edition
  4  the input cannot be read
  5  the output, or the line, cannot be written whole
  6  memory is refused; nothing is written

example
  cd examples/two-exits
  propane maps compile.stdout
";

/// How `renew` is used.
pub const RENEW: &str = "usage: propane renew TOPO POLICY CONFIG [EVIDENCE]

Compiles the policy as compile does, into a configuration that may take over
from CONFIG while the network runs: at each router its tags are the least that
stand nowhere in CONFIG, and each preference is raised by the greatest of
CONFIG. It keeps the policy as what compile writes does. No tag stands in both,
and each of its preferences is above each of CONFIG. CONFIG may be of any
network; its tags and its preferences alone matter.

With EVIDENCE what stays keeps its tags and its preferences, and so its lines: a
class that shares prefixes with one old class, and with no other that has lines,
where the graph of its case is the same, and preferences stand alike.

reads
  TOPO      a topology text: routers, peers and links
  POLICY    a policy text for that network: the new one
  CONFIG    the old configuration, a text of the second edition
  EVIDENCE  the evidence of CONFIG

writes
  output        the configuration text, a block for each router
  error output  on status 1, 3 and 4 one line that says why

status
  0  the configuration is written
  1  the policy is refused, preferences run out, or EVIDENCE lets none take over
  3  an input is too long, or no text of its kind
  4  an input cannot be read
  5  the output, or the line, cannot be written whole
  6  memory is refused; nothing is written

example
  cd examples/two-exits
  propane renew topology.json policy.propane compile.stdout
  propane evidence topology.json policy.propane > evidence.json
  propane renew topology.json policy.propane compile.stdout evidence.json
";

/// How `renewal` is used.
pub const RENEWAL: &str = "usage: propane renewal TOPO POLICY CONFIG [EVIDENCE]

Writes the evidence for what renew writes of the same texts: it passes check
with that.

reads
  TOPO      a topology text: routers, peers and links
  POLICY    a policy text for that network: the new one
  CONFIG    the old configuration, a text of the second edition
  EVIDENCE  the evidence of CONFIG

writes
  output        the evidence text, one line of JSON
  error output  on status 1, 3 and 4 one line that says why

status
  0  the evidence is written
  1  the policy is refused, preferences run out, or EVIDENCE lets none take over
  3  an input is too long, or no text of its kind
  4  an input cannot be read
  5  the output, or the line, cannot be written whole
  6  memory is refused; nothing is written

example
  cd examples/two-exits
  propane renewal topology.json policy.propane compile.stdout
";

/// How `migrate` is used.
pub const MIGRATE: &str = "usage: propane migrate CONFIG

Reads a configuration text of the first edition, and writes the text of the
same configuration in the second, where tags are large communities. Evidence
that passed with the old text passes with the new one.

reads
  CONFIG  a configuration text of the first edition

writes
  output        the configuration text in the second edition
  error output  on status 3 and 4 one line that says why

status
  0  the configuration is written
  3  the input is too long, or no text of the first edition
  4  the input cannot be read
  5  the output, or the line, cannot be written whole
  6  memory is refused; nothing is written

example
  cd examples/two-routers
  propane migrate old-config.txt
";

/// How `sample` is used.
pub const SAMPLE: &str = "usage: propane sample N

Makes a data centre of N leaves and four spines with two providers, and a
policy for it, compiles the policy, and tells how much there is of routers,
links, cases, nodes and steps. N is from 2 to 96, without a leading zero.

reads
  nothing

writes
  output        a line for each count, and the line holds
  error output  on status 1 the refusal, on status 2 the usage line

status
  0  the lines are written
  1  the policy is refused
  2  N is no such number
  5  the output, or the line, cannot be written whole
  6  memory is refused; nothing is written

example
  propane sample 24
";
