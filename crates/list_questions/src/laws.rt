ghost use Rattle.std.specs.Prelude.{◌≡◌};
ghost use Rattle.query_lang.specs.declared.script.Explore.{Explore};
ghost use Rattle.list_questions.specs.declared.question.ListQuestion.{ListQuestion};
ghost use Rattle.list_questions.specs.Questions.{IsAsked};

/// A law: an EXPLORE asks one question about a list at most.
pub fn one_question()
    ensures { (explore : Explore) (question other : ListQuestion) → IsAsked explore question
        → IsAsked explore other → question ≡ other }
{}
