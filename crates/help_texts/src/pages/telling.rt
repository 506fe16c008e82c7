//! The commands that tell what comes of a policy.

/// How `replay` is used.
pub const REPLAY: &str = "usage: propane replay TOPO POLICY SCENARIO

Compiles the policy, lets the routers, links and peer sessions of the scenario
fail, and tells what the network settles to for its prefix: what each router
holds, and what each claimed session offers its peer. Routes of one preference
are chosen as BGP does, so there is one such outcome.

reads
  TOPO      a topology text: routers, peers and links
  POLICY    a policy text for that network
  SCENARIO  a scenario text: what fails, and the prefix

writes
  output        the prefix, its class, and a line for each router and session
  error output  on status 1, 3 and 4 one line that says why

status
  0  the report is written
  1  the policy is refused
  3  an input is too long, or no text of its kind
  4  an input cannot be read
  5  the output, or the line, cannot be written whole
  6  memory is refused; nothing is written

example
  cd examples/two-exits
  propane replay topology.json policy.propane dead-link.json
";

/// How `trace` is used.
pub const TRACE: &str = "usage: propane trace TOPO POLICY EVENTS

Compiles the policy, and lets the events happen one after another, from the
moment at which all is up and nothing is delivered: messages that come, links
and routers that go down and come up, peers that fall silent and speak. Then it
tells which events cannot happen, whether a message waits, and what each router
holds. Where none waits, that is what replay tells of what has failed then.

reads
  TOPO    a topology text: routers, peers and links
  POLICY  a policy text for that network
  EVENTS  an event text: what happens, and the prefix

writes
  output        a line for each event that cannot happen, whether all is
                quiet, and then the lines of replay
  error output  on status 1, 3 and 4 one line that says why

status
  0  the trace is written
  1  the policy is refused
  3  an input is too long, or no text of its kind
  4  an input cannot be read
  5  the output, or the line, cannot be written whole
  6  memory is refused; nothing is written

example
  cd examples/two-exits
  propane trace topology.json policy.propane flap.json
";

/// How `impact` is used.
pub const IMPACT: &str = "usage: propane impact TOPO POLICY PREFIX

Tells for each source that the policy claims for the prefix its best rank
without failures; and for each single dead link and router that changes
something the sources that then get another rank, and that rank, or none where
no allowed path survives. This speaks of paths: the ranks are the same where
routers spread packets. PREFIX is written as in a policy: 10.0.1.0/24.

reads
  TOPO    a topology text: routers, peers and links
  POLICY  a policy text for that network

writes
  output        the prefix, its class, the ranks, the changes and their number
  error output  on status 1, 3 and 4 one line that says why, on status 2 the
                usage line

status
  0  the lines are written
  1  the policy is refused
  2  PREFIX is no prefix
  3  an input is too long, or no text of its kind
  4  an input cannot be read
  5  the output, or the line, cannot be written whole
  6  memory is refused; nothing is written

example
  cd examples/two-exits
  propane impact topology.json policy.propane 198.51.100.0/24
";

/// How `drain` is used.
pub const DRAIN: &str = "usage: propane drain TOPO POLICY SCENARIO

Compiles the policy, lets the routers, links and peer sessions of the scenario
fail, and tells which of the links and routers that live carry nothing for its
prefix: where such a one fails next, every other router keeps its route, and
every peer is offered what it is offered now. No message is sent. This speaks of
routes: where routers spread packets, multipath tells which links carry some.

reads
  TOPO      a topology text: routers, peers and links
  POLICY    a policy text for that network
  SCENARIO  a scenario text: what fails, and the prefix

writes
  output        the prefix, its class, a line for each link and router that is
                free, and their number of those that live
  error output  on status 1, 3 and 4 one line that says why

status
  0  the lines are written
  1  the policy is refused
  3  an input is too long, or no text of its kind
  4  an input cannot be read
  5  the output, or the line, cannot be written whole
  6  memory is refused; nothing is written

example
  cd examples/two-exits
  propane drain topology.json policy.propane dead-link.json
";

/// How `settle` is used.
pub const SETTLE: &str = "usage: propane settle TOPO POLICY EVENTS

Compiles the policy, lets the events happen one after another as trace does, and
then delivers messages round by round until none waits: in each round all that
wait at its beginning. It tells how many rounds and deliveries that took, and
what each router then holds. Where nothing more happens, all messages are
delivered and ties are broken as here, networks that run what is compiled come
to rest in one outcome: what replay tells of what has failed then.

reads
  TOPO    a topology text: routers, peers and links
  POLICY  a policy text for that network
  EVENTS  an event text: what happens, and the prefix

writes
  output        a line for each event that cannot happen, the rounds, the
                deliveries, and then the lines of replay
  error output  on status 1, 3 and 4 one line that says why

status
  0  the lines are written
  1  the policy is refused
  3  an input is too long, or no text of its kind
  4  an input cannot be read
  5  the output, or the line, cannot be written whole
  6  memory is refused; nothing is written

example
  cd examples/two-exits
  propane settle topology.json policy.propane flap-begins.json
";

/// How `waiting` is used.
pub const WAITING: &str = "usage: propane waiting TOPO POLICY EVENTS

Compiles the policy, lets the events happen one after another as trace does, and
tells which messages wait then: in both directions of each link, the first one
first, and of each the path that it announces, or that it withdraws one. So it
says what each further delivery would deliver. Events that cannot happen are
passed over; trace tells them, and what each router holds.

reads
  TOPO    a topology text: routers, peers and links
  POLICY  a policy text for that network
  EVENTS  an event text: what happens, and the prefix

writes
  output        a line for each message that waits, and whether all is quiet
  error output  on status 1, 3 and 4 one line that says why

status
  0  the lines are written
  1  the policy is refused
  3  an input is too long, or no text of its kind
  4  an input cannot be read
  5  the output, or the line, cannot be written whole
  6  memory is refused; nothing is written

example
  cd examples/two-exits
  propane waiting topology.json policy.propane flap-begins.json
";

/// How `promises` is used.
pub const PROMISES: &str = "usage: propane promises TOPO POLICY

Compiles the policy, and tells of each of its cases what is promised and to
whom: its prefixes and origins, the sources that may rely on it with the best
rank of each while nothing has failed, and the routers, sessions and peers to
which nothing is promised. Transit routers carry the prefix and may not rely on
it. Prefixes that are originated and that no statement governs are uncarried.

reads
  TOPO    a topology text: routers, peers and links
  POLICY  a policy text for that network

writes
  output        the lines of each case, the uncarried prefixes, and the counts
  error output  on status 1, 3 and 4 one line that says why

status
  0  the lines are written
  1  the policy is refused
  3  an input is too long, or no text of its kind
  4  an input cannot be read
  5  the output, or the line, cannot be written whole
  6  memory is refused; nothing is written

example
  cd examples/two-exits
  propane promises topology.json policy.propane
";

/// How `whatif` is used.
pub const WHATIF: &str = "usage: propane whatif TOPO POLICY SCENARIO

Tells what one more failure changes, besides those of the scenario: for each
source that the policy claims for its prefix the best rank now; and for each
link and router that lives, and whose failure changes something, how many other
routers then hold another route (moves), how many have another multipath set
(shifts), and the sources with another best rank. Ranks and moves speak of
routes; shifts speaks of packets that routers spread, as multipath does.

reads
  TOPO      a topology text: routers, peers and links
  POLICY    a policy text for that network
  SCENARIO  a scenario text: what has failed, and the prefix

writes
  output        the prefix, its class, the ranks, the changes and their number
  error output  on status 1, 3 and 4 one line that says why

status
  0  the lines are written
  1  the policy is refused
  3  an input is too long, or no text of its kind
  4  an input cannot be read
  5  the output, or the line, cannot be written whole
  6  memory is refused; nothing is written

example
  cd examples/two-exits
  propane whatif topology.json policy.propane p1-silent.json
";

/// How `multipath` is used.
pub const MULTIPATH: &str = "usage: propane multipath TOPO POLICY SCENARIO

Compiles the policy, lets the routers, links and peer sessions of the scenario
fail, and tells where packets go for its prefix if each router spreads them over
all neighbours whose routes tie with its own: those of the same preference with
as many AS numbers. Each way that packets take ends at an origin, has as many
hops as the router's own path, and is as right as that path. Idle links are
those that live and over which no packet goes.

reads
  TOPO      a topology text: routers, peers and links
  POLICY    a policy text for that network
  SCENARIO  a scenario text: what fails, and the prefix

writes
  output        the prefix, its class, a line for each router and session, a
                line for each idle link, and their number of those that live
  error output  on status 1, 3 and 4 one line that says why

status
  0  the lines are written
  1  the policy is refused
  3  an input is too long, or no text of its kind
  4  an input cannot be read
  5  the output, or the line, cannot be written whole
  6  memory is refused; nothing is written

example
  cd examples/fabric
  propane multipath topology.json policy.propane no-failure.json
";

/// How `compare` is used.
pub const COMPARE: &str = "usage: propane compare TOPO OLD NEW

Tells what a new policy changes beside an old one for the same network: for
which prefixes, for which routers and sessions, and by which walk it shows. The
rank of a walk is told for OLD and for NEW, and none where it is not permitted.
Where the last line ends in changed 0, both say the same of every prefix, and a
configuration is right for the one exactly where it is right for the other.
Neither policy is compiled, so a policy that compile refuses is compared, too,
unless it passes a limit.

reads
  TOPO  a topology text: routers, peers and links
  OLD   the text of the old policy for that network
  NEW   the text of the new policy for that network

writes
  output        the lines of each change, and how many of the cases change
  error output  on status 1, 3 and 4 one line that says why

status
  0  the lines are written, whether something changes or not
  1  a case of a policy passes a limit, or the pairs of cases do
  3  an input is too long, or no text of its kind
  4  an input cannot be read
  5  the output, or the line, cannot be written whole
  6  memory is refused; nothing is written

example
  cd examples/two-exits
  propane compare topology.json policy.propane swapped.propane
";
