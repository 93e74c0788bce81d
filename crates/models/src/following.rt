// Doing one action again and again from the start of a model.
ghost use Rattle.std.specs.Prelude.{◌≡◌, MatchOption};
ghost use Rattle.transitions.specs.Following.{FirstStep, HasNoStep, Repeated};

use crate::systems::TransitionSystem;

// A place of a state, and where its step leads.
#[derive(Clone, Copy, Debug, PartialEq, Eq)]
pub struct Placed {
    pub place: usize,
    pub target: usize,
}

// How often an action was done, and the state where that ended.
#[derive(Clone, Copy, Debug, PartialEq, Eq)]
pub struct Walk {
    pub turns: u16,
    pub state: usize,
}

// The lowest place of a state that holds a step of the action.
pub fn first_step<M: TransitionSystem>(model: &M, action: u8, state: usize) -> Option<Placed>
    ensures { MatchOption result (HasNoStep (M.TransitionSystem.meaning model.now) action state) (λ x. FirstStep (M.TransitionSystem.meaning model.now) action state x.place x.target) }
{
    (0..model.width()).find_map(|place| {
        let step = model.step(state, place)?;
        (step.action == action).then_some(Placed {
            place,
            target: step.target.into(),
        })
    })
}

// Does the action from the start, each time at the lowest place that holds it, until no step of it is left or the turns are made.
pub fn follow<M: TransitionSystem>(model: &M, action: u8, turns: u16) -> Walk
    ensures { Repeated (M.TransitionSystem.meaning model.now) action turns result.turns result.state }
{
    let mut state = model.start();
    for made in 0..turns {
        let Some(next) = first_step(model, action, state) else {
            return Walk { turns: made, state };
        };
        state = next.target;
    }
    Walk { turns, state }
}
