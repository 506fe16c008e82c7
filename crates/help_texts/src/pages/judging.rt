//! The commands that judge what they are given.

/// How `check` is used.
pub const CHECK: &str = "usage: propane check TOPO POLICY CONFIG EVIDENCE

Tells whether the evidence shows that the configuration keeps the policy,
whoever made the two. Where it writes holds, the configuration is right for the
network and the policy, under all failures, as what compile writes is. Where a
rule fails, this evidence does not show it.

reads
  TOPO      a topology text: routers, peers and links
  POLICY    a policy text for that network
  CONFIG    a configuration text of the second edition
  EVIDENCE  an evidence text

writes
  output        holds, or the first rule that fails, and where
  error output  on status 3 and 4 one line that says why

status
  0  the evidence passes, and the configuration is the one that it gives
  3  an input is too long, or no text of its kind
  4  an input cannot be read
  5  the output, or the line, cannot be written whole
  6  memory is refused; nothing is written
  7  a rule fails

example
  cd examples/two-exits
  propane check topology.json policy.propane compile.stdout evidence.stdout
";

/// How `explain` is used.
pub const EXPLAIN: &str = "usage: propane explain TOPO POLICY

Tells whether the policy is accepted, or the refusal that applies to it. For
refusal 6, that there is no evidence, it writes the lines that show it, each of
which can be checked by hand.

reads
  TOPO    a topology text: routers, peers and links
  POLICY  a policy text for that network

writes
  output        accepted, or the refusal with the lines that show it
  error output  on status 3 and 4 one line that says why

status
  0  the answer is written, whichever it is
  3  an input is too long, or no text of its kind
  4  an input cannot be read
  5  the output, or the line, cannot be written whole
  6  memory is refused; nothing is written

example
  cd examples/waypoint-ring
  propane explain topology.json policy.propane
";

/// How `lint` is used.
pub const LINT: &str = "usage: propane lint TOPO POLICY

Names the parts of a policy that can never matter: groups that nothing uses,
statements whose prefixes are all governed by earlier ones, statements of which
nothing is compiled, and alternatives that no walk of theirs has as its rank.

reads
  TOPO    a topology text: routers, peers and links
  POLICY  a policy text for that network

writes
  output        a line for each such part, and their number
  error output  on status 1, 3 and 4 one line that says why

status
  0  the lines are written
  1  a case of the policy passes a limit
  3  an input is too long, or no text of its kind
  4  an input cannot be read
  5  the output, or the line, cannot be written whole
  6  memory is refused; nothing is written

example
  cd examples/lint
  propane lint topology.json policy.propane
";

/// How `checkmap` is used.
pub const CHECKMAP: &str = "usage: propane checkmap CONFIG MAPS

Tells whether route maps are those of a configuration. Where it writes same,
the maps make of every prefix and every route what the configuration makes of
it. Maps of more than 1,000,000 lines are refused.

reads
  CONFIG  a configuration text of the second edition
  MAPS    a maps text

writes
  output        same, or the first line that differs
  error output  on status 1, 3 and 4 one line that says why

status
  0  the maps are those of the configuration
  1  the maps of the configuration have too many lines
  3  an input is too long, or no text of its kind
  4  an input cannot be read
  5  the output, or the line, cannot be written whole
  6  memory is refused; nothing is written
  7  the maps are others

example
  cd examples/two-exits
  propane checkmap compile.stdout routemap.stdout
";

/// How `audit` is used.
pub const AUDIT: &str = "usage: propane audit TOPO POLICY CONFIG EVIDENCE SCENARIO TABLES

Tells whether the routes that routers hold, recorded at one moment, are what
the configuration makes of what has failed. Where it writes stable, the evidence
passes, each router holds what its neighbours' routes make it hold, and each
claimed source has the best rank among the allowed paths that survive.

reads
  TOPO      a topology text: routers, peers and links
  POLICY    a policy text for that network
  CONFIG    a configuration text of the second edition
  EVIDENCE  an evidence text
  SCENARIO  a scenario text: what has failed, and the prefix
  TABLES    a tables text: the route of each router

writes
  output        stable and the lines of replay; or the first rule of check that
                fails, or the first router whose route is not stable
  error output  on status 3 and 4 one line that says why

status
  0  the evidence passes, and the routes are stable
  3  an input is too long, or no text of its kind
  4  an input cannot be read
  5  the output, or the line, cannot be written whole
  6  memory is refused; nothing is written
  7  a rule fails, or a route is not stable

example
  cd examples/two-exits
  propane audit topology.json policy.propane compile.stdout evidence.stdout \\
    dead-link.json tables.json
";
