//! Rounds until no message waits.
ghost use Rattle.std.specs.Prelude.{◌≡◌, ◌≤◌, IfOk, length};
ghost use Rattle.policy_base.specs.Policies.{policy_of};
ghost use Rattle.event_rounds.specs.Resting.{IsReached, RestsIn, rounds_in, world_in};
ghost use Rattle.event_state.specs.States.{setting, speakers, state};
ghost use Rattle.rest_law.specs.Rest.{ComesToRest, rounds_enough as enough_for};
ghost use Rattle.rest_law.specs.Rounds.{AreRounds};

use crate::enough::rounds_enough;
use crate::round::play_round;
use event_state::World;
use input_output::NoMemory;
use std::alloc::Global;

/// How a network came to rest: in so many rounds, by so many deliveries.
#[derive(Clone, Copy, Debug, PartialEq, Eq)]
pub struct Rest {
    /// How many rounds were played: the least number after which no message waits, below 2^32.
    pub rounds: u64,
    /// How many messages were delivered in these rounds.
    pub deliveries: u128,
}

/// Delivers messages round by round until none waits, and says after how many rounds that is and how many messages were delivered.
/// A network that comes to rest needs no more rounds than are enough for it.
pub fn come_to_rest(alloc: Global, world: &mut World<'_>) -> Result<Rest, NoMemory>
    requires reached { IsReached (speakers world.old) (state world.old) }
    requires rests { ComesToRest world.old.net.now (policy_of world.old.policy.now) world.old.config.now world.old.prefix }
    ensures setting { setting world.new ≡ setting world.old }
    ensures first { IfOk result (λ rest. RestsIn world.old.net.now.links (speakers world.old) rest.rounds (state world.old)) }
    ensures enough { IfOk result (λ rest. rest.rounds ≤ enough_for world.old.net.now) }
    ensures rounds { IfOk result (λ rest. AreRounds (speakers world.old) rest.rounds (state world.old) (rounds_in world.old.net.now.links (speakers world.old) rest.rounds (state world.old))) }
    ensures deliveries { IfOk result (λ rest. rest.deliveries ≡ length (rounds_in world.old.net.now.links (speakers world.old) rest.rounds (state world.old))) }
    ensures world { IfOk result (λ rest. state world.new ≡ world_in world.old.net.now.links (speakers world.old) rest.rounds (state world.old)) }
{
    let enough = rounds_enough(world.net());
    let mut deliveries = 0;
    for rounds in 0..enough {
        if world.is_quiet() {
            return Ok(Rest { rounds, deliveries });
        }
        deliveries += play_round(alloc, world)? as u128;
    }
    Ok(Rest {
        rounds: enough,
        deliveries,
    })
}
