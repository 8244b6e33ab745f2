ghost use Rattle.std.specs.Prelude.{◌≡◌, ◌↔◌, ◌++◌, Bool, true, List, [], ◌∷◌, if◌then◌else◌};
ghost use Rattle.std.specs.List.{list_any};
ghost use Rattle.ios_config.specs.Request.{Request};
ghost use Rattle.frame.specs.Question.{Question};
ghost use Rattle.frame.specs.Scenario.{IsFirst, same_test, visible};
ghost use Rattle.frame.specs.declared.question.Test.{Test};
ghost use Rattle.frame.specs.Solution.{HasNoSolution};

/// A question has a first request or none that solves it: there is no question that has neither.
pub fn first_or_none()
    ensures { (question : Question) → ((request : Request) → IsFirst question request → ⊥)
        → (HasNoSolution question → ⊥) → ⊥ }
{}

/// A question has one first request at most. A request is the function of its fields, so that two with the same values
/// are the same one.
pub fn one_first()
    ensures { (question : Question) (request other : Request) → IsFirst question request
        → IsFirst question other → request ≡ other }
{}

/// `visible`, read from the front: a test that is shown already is left out, and any other stands behind those before
/// it. Two tests are the same where they have the same field, and the same value and wildcard or the same ends.
pub fn shown_once()
    ensures same { (a b : Test) → (same_test a b ≡ true) ↔ (a ≡ b) }
    ensures first { visible [] ≡ [] }
    ensures next { (tests : List Test) (test : Test) → visible (tests ++ test ∷ []) ≡
        (if list_any (λ shown. same_test shown test) (visible tests)
        then visible tests else visible tests ++ test ∷ []) }
{}
