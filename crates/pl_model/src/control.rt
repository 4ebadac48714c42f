//! Laws of control: how far a cut goes back, and where a ball is caught.
ghost use Rattle.std.specs.Prelude.{◌≡◌, ℕ, List, ◌∷◌, ◌++◌, length};
ghost use Rattle.pl_term.specs.Tree.{Tree};
ghost use Rattle.pl_model.specs.Resolution.{Limits, Pending, leave, Node, Choice, catch, State, up_to};
ghost use Rattle.pl_model.specs.Control.{at_catch, fitting, thrown};

/// A cut to the height of a stack of choice points leaves this stack, whatever choice points were made over it
/// (ISO 7.8.4): with the height at which call/1 is entered, it leaves those of its caller (7.8.3).
#[tactic(auto, using(crate::proofs::ControlLaws::cut_back))]
pub fn cuts_back_to_height()
    ensures { (more cs : List Choice) → up_to (length cs) (more ++ cs) ≡ cs }
{}

/// A ball goes to the catch whose exit is the first that is still to be done (ISO 7.8.9, 7.8.10): the choice points above
/// it are gone, and the ball meets the catcher at the node of the call, whose goals and answer know no later binding.
#[tactic(auto, using(crate::proofs::ControlLaws::caught_there))]
pub fn catches_at_the_call()
    ensures { (l : Limits) (s : State) (ball : Tree) (ps : List Pending) (catcher recovery : Tree) (n : Node) (more older : List Choice)
        → s.choices ≡ more ++ catch catcher recovery n ∷ older
        → thrown l s ball (leave (length older) ∷ ps)
        ≡ at_catch (record s { choices = older }) n catcher recovery (fitting l (record s { choices = older }) n ball) }
{}
