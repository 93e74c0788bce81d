// The theorems on matches, verdicts and made systems. Each function's contract is the theorem; the number it returns says nothing.
ghost use Rattle.transitions.specs.Reply.{MatchReplies};
ghost use Rattle.transitions.specs.Theorems.{RunsFollowed, VerdictsExact, MadeExact};

// A match lets each run from either start be followed from the other, showing the same actions, the last states a standing
// pair; where one last state may end, the other may after silent steps.
pub fn runs_followed() -> u8
    ensures { RunsFollowed }
{
    0
}

// Any two models and any pairing have exactly one verdict: match exactly for a match, else the first broken condition.
pub fn verdicts_exact() -> u8
    ensures { VerdictsExact }
{
    0
}

// Blocked, hidden and merged systems keep the limits, have exactly the steps of their rules, and keep a match.
pub fn made_exact() -> u8
    ensures { MadeExact }
{
    0
}

// Over a match each step of a state of a standing pair has a reply of the other state.
pub fn match_replies() -> u8
    ensures { MatchReplies }
{
    0
}
