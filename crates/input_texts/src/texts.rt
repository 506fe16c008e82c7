//! The texts that are read: of a topology, of a policy, a scenario, events and tables for its network, of a configuration, of maps and
//! of evidence.
ghost use Rattle.std.specs.Prelude.{◌≡◌, ◌<◌, length, IfOk};
ghost use Rattle.policy_base.specs.Policies.{IsPolicyOf, policy_of};
ghost use Rattle.policy_parser.specs.Spelled.{spelled as policy_spelled};
ghost use Rattle.policy_base.specs.CaseNumbers.{OriginsAreRouters};
ghost use Rattle.config_lines.specs.declared.edition.Edition.TheVariants.{First};
ghost use Rattle.config_reader.specs.Text.{spelled_in, spelled as config_spelled};
ghost use Rattle.evidence_text.specs.Spelled.{spelled as evidence_spelled};
ghost use Rattle.scenario_reader.specs.Spelled.{spelled as scenario_spelled};
ghost use Rattle.event_reader.specs.Spelled.{spelled as events_spelled};
ghost use Rattle.table_reader.specs.Spelled.{spelled as tables_spelled};
ghost use Rattle.map_reader.specs.MapsRead.{spelled as maps_spelled};
ghost use Rattle.input_texts.specs.Texts.{IsNetOr, IsNamedPolicyOr, IsPolicyOr, IsConfigOr, IsEvidenceOr, IsScenarioOr, IsEventsOr, IsTablesOr, IsMapsOr};
ghost use Rattle.topology.specs.Topology.{spelled};

use crate::fault_lines::or_told;
use config_base::Config;
use config_reader::{read_config, read_config_1};
use event_reader::{Events, read_events};
use evidence_base::Evidence;
use evidence_text::read_evidence;
use map_reader::read_maps;
use net_base::Net;
use policy_base::Policy;
use policy_parser::read_policy;
use route_maps::Maps;
use run_base::Stop;
use scenario_reader::read_scenario;
use scenarios::{Outcome, Scenario};
use std::alloc::Global;
use table_reader::read_tables;
use topology::read_topology;

/// The net that the bytes spell, or why the run stops.
pub fn net_of(alloc: Global, topology: &[u8]) -> Result<Net, Stop>
    ensures { IsNetOr (spelled topology.now) result }
{
    or_told(alloc, b"topology", read_topology(alloc, topology))
}

/// The policy that the bytes spell for the net, or why the run stops. A fault is told of a text by these words, as `old policy`.
pub fn policy_named(alloc: Global, words: &[u8], net: &Net, policy: &[u8]) -> Result<Policy, Stop>
    requires { length policy.now < 4294967295 }
    ensures spells { IsNamedPolicyOr words.now (policy_spelled net.now policy.now) result }
    ensures routers { IfOk result (λ policy. OriginsAreRouters net.now policy.origins) }
    ensures fits { IfOk result (λ policy. IsPolicyOf net.now (policy_of policy)) }
{
    or_told(alloc, words, read_policy(alloc, policy, net))
}

/// The policy that the bytes spell for the net, or why the run stops.
pub fn policy_for(alloc: Global, net: &Net, policy: &[u8]) -> Result<Policy, Stop>
    requires { length policy.now < 4294967295 }
    ensures spells { IsPolicyOr (policy_spelled net.now policy.now) result }
    ensures routers { IfOk result (λ policy. OriginsAreRouters net.now policy.origins) }
    ensures fits { IfOk result (λ policy. IsPolicyOf net.now (policy_of policy)) }
{
    policy_named(alloc, b"policy", net, policy)
}

/// The configuration that the bytes spell, or why the run stops.
pub fn config_for(alloc: Global, config: &[u8]) -> Result<Config, Stop>
    requires { length config.now < 4294967295 }
    ensures { IsConfigOr (config_spelled config.now) result }
{
    or_told(alloc, b"config", read_config(alloc, config))
}

/// The configuration that the bytes spell as a text of the first edition, or why the run stops.
pub fn config_1_for(alloc: Global, config: &[u8]) -> Result<Config, Stop>
    requires { length config.now < 4294967295 }
    ensures { IsConfigOr (spelled_in First config.now) result }
{
    or_told(alloc, b"config", read_config_1(alloc, config))
}

/// The evidence that the bytes spell, or why the run stops.
pub fn evidence_for(alloc: Global, evidence: &[u8]) -> Result<Evidence, Stop>
    ensures { IsEvidenceOr (evidence_spelled evidence.now) result }
{
    or_told(alloc, b"evidence", read_evidence(alloc, evidence))
}

/// The scenario that the bytes spell for the net, or why the run stops.
pub fn scenario_for(alloc: Global, net: &Net, scenario: &[u8]) -> Result<Scenario, Stop>
    ensures { IsScenarioOr (scenario_spelled net.now scenario.now) result }
{
    or_told(alloc, b"scenario", read_scenario(alloc, scenario, net))
}

/// The prefix and the events that the bytes spell for the net, or why the run stops.
pub fn events_for(alloc: Global, net: &Net, events: &[u8]) -> Result<Events, Stop>
    ensures { IsEventsOr (events_spelled net.now events.now) result }
{
    or_told(alloc, b"events", read_events(alloc, events, net))
}

/// The routes that the bytes spell for the net, one entry a router, or why the run stops.
pub fn tables_for(alloc: Global, net: &Net, tables: &[u8]) -> Result<Outcome, Stop>
    ensures spells { IsTablesOr (tables_spelled net.now tables.now) result }
    ensures size { IfOk result (λ outcome. length outcome.routes ≡ length net.now.routers) }
{
    or_told(alloc, b"tables", read_tables(alloc, tables, net))
}

/// The maps that the bytes spell, or why the run stops.
pub fn maps_for(alloc: Global, maps: &[u8]) -> Result<Maps, Stop>
    requires { length maps.now < 4294967295 }
    ensures { IsMapsOr (maps_spelled maps.now) result }
{
    or_told(alloc, b"maps", read_maps(alloc, maps))
}
