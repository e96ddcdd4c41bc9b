//! How many there may be.
ghost use Rattle.std.specs.Prelude.{◌≡◌, [], ◌∷◌, option_map};
ghost use Rattle.paje_defs.specs.Refusals.{first_of};
ghost use Rattle.paje_lines.specs.declared.model_fault.ModelFault.TheVariants.{DoubleAlias};
ghost use Rattle.paje_lines.specs.Reasons.{full, limit_of};
ghost use Rattle.paje_model.specs.Finds.{Finds};

use paje_lines::{ModelFault, What};
use trace_base::{
    MAX_CONTAINERS, MAX_FUNCTIONS, MAX_LINK_EVENTS, MAX_STATE_EVENTS, MAX_TRACKS, MAX_TYPES,
    MAX_VALUES,
};

fn limit_of(what: What) -> u32
    ensures { result ≡ limit_of what }
{
    match what {
        What::Types => MAX_TYPES,
        What::Values => MAX_VALUES,
        What::Containers => MAX_CONTAINERS,
        What::StateEvents => MAX_STATE_EVENTS,
        What::Tracks => MAX_TRACKS,
        What::Functions => MAX_FUNCTIONS,
        What::LinkEvents => MAX_LINK_EVENTS,
    }
}

/// There is room for one more beside so many.
pub fn room(what: What, count: usize) -> Result<(), ModelFault>
    ensures { Finds (full what count) (λ _. Unit {0}) result }
{
    if count >= limit_of(what) as usize {
        return Err(ModelFault::TooMany(what));
    }
    Ok(())
}

/// One more may be declared: no line took its alias, and there is room beside so many.
pub fn may_declare(taken: Option<u32>, what: What, count: usize) -> Result<(), ModelFault>
    ensures { Finds (first_of (option_map DoubleAlias taken ∷ full what count ∷ [])) (λ _. Unit {0}) result }
{
    match taken {
        Some(line) => Err(ModelFault::DoubleAlias(line)),
        None => room(what, count),
    }
}
