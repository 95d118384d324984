//! What a method gave, as the result of its call.
ghost use Rattle.std.specs.Prelude.{List, IfOk};
ghost use Rattle.nv_value.specs.View.{content};
ghost use Rattle.nv_msgpack.specs.Shortest.{HasSpelling};
ghost use Rattle.nv_rpc.specs.Outcomes.{outcome_content};
ghost use Rattle.nv_model.specs.Answers.{Answer, Fact};
ghost use Rattle.nv_model.specs.Standing.{PresentEditor};
ghost use Rattle.nv_editor.specs.Doing.{GivesAnswer, GivesResult};

use nv_args::Fail;
use nv_rpc::{CallResult, Outcome};
use nv_value::Value;

/// The value that a method gave, as the result of its call.
pub fn as_outcome(given: Result<Value, Fail>) -> Result<Outcome, Fail>
    requires { IfOk given (λ value. HasSpelling (content value)) }
    ensures answer { (answer : Answer) (before after : PresentEditor) (told now : List Fact)
        → GivesAnswer answer given before after told now
        → GivesResult answer result before after told now }
    ensures spelled { IfOk result (λ outcome. HasSpelling (outcome_content outcome)) }
{
    match given {
        Ok(value) => Ok(Outcome::One(CallResult::Value(value))),
        Err(fail) => Err(fail),
    }
}
