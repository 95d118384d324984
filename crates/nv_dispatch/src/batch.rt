//! What calls one after another come to (Neovim help `nvim_call_atomic()`).
ghost use Rattle.std.specs.Prelude.{◌≡◌, [], ◌∷◌, ◌+◌, ◌<◌, ◌^◌, false, length, map, option_map, None, IfOk, IfSome, OnOk};
ghost use Rattle.nv_value.specs.View.{content};
ghost use Rattle.nv_msgpack.specs.Shortest.{HasSpelling};
ghost use Rattle.nv_rpc.specs.Outcomes.{call_result_content, outcome_content};
ghost use Rattle.nv_args.specs.Refusals.{CanBeTold};
ghost use Rattle.nv_model.specs.Answering.{array_of};
ghost use Rattle.nv_dispatch.specs.Calls.{stop_value};
ghost use Rattle.nv_dispatch.specs.Outcomes.{CanBeSent};
ghost use Rattle.nv_dispatch.specs.inside.Batches.{CanBeListed, TakesResult, stop_of};

use crate::done::Done;
use nv_args::Fail;
use nv_rpc::{AtomicResults, CallResult, Outcome};
use nv_value::{ApiFault, Value};
use std::alloc::{AllocError, Global};

/// Where calls stopped: the number of the call, from 0, and its fault.
#[derive(Drop)]
pub struct Stop {
    pub number: u64,
    pub fault: ApiFault,
}

/// What calls one after another came to: the results of those that succeeded, where they stopped,
/// and whether one may have changed what is seen.
#[derive(Drop)]
pub struct Results {
    pub values: Vec<CallResult>,
    pub stopped: Option<Stop>,
    pub is_seen: bool,
}

// How a fault among calls is told: the number of its call, its kind and its words.
fn stop_value(alloc: Global, stopped: Option<Stop>) -> Result<Value, AllocError>
    requires number { IfSome stopped (λ stop. stop.number < 2 ^ 31) }
    requires words { IfSome stopped (λ stop. CanBeTold stop.fault) }
    ensures spelled { IfOk result (λ value. HasSpelling (content value)) }
    ensures told { IfOk result
        (λ value. content value ≡ stop_value (option_map stop_of stopped)) }
{
    let Some(stop) = stopped else {
        return Ok(Value::Nil);
    };
    let number = Value::Int(stop.number as i64);
    let kind = Value::Int(stop.fault.kind as i64);
    let words = Value::Text(stop.fault.words);
    Ok(Value::List(vec![in alloc; number, kind, words]?))
}

impl Results {
    /// No call was made yet.
    pub fn new(alloc: Global) -> Results
        ensures none { result.values.items ≡ [] }
        ensures going { result.stopped ≡ None }
        ensures seen { result.is_seen ≡ false }
        ensures listed { CanBeListed result }
    {
        Results {
            values: Vec::new(alloc),
            stopped: None,
            is_seen: false,
        }
    }

    /// Takes the result of one more call, or stops at its fault.
    pub fn with(mut self, given: Result<Done, Fail>) -> Result<Results, AllocError>
        requires going { self.stopped ≡ None }
        requires few { OnOk given (length self.values.items + 1 < 2 ^ 31) }
        requires sendable { CanBeSent given }
        requires listed { CanBeListed self }
        ensures taken { IfOk result (λ later. TakesResult given self later) }
        ensures listed { IfOk result (λ later. CanBeListed later) }
    {
        match given {
            Ok(done) => {
                let value = done.result.into_result(*self.values.allocator())?;
                self.values.push(value)?;
                self.is_seen = self.is_seen || done.is_seen;
                Ok(self)
            }
            Err(Fail::Api(fault)) => {
                let number = self.values.len() as u64;
                self.stopped = Some(Stop { number, fault });
                Ok(self)
            }
            Err(Fail::NoMemory) => Err(AllocError),
        }
    }

    /// The results and the fault as what the calls give together.
    pub fn into_outcome(self, alloc: Global) -> Result<Outcome, AllocError>
        requires { CanBeListed self }
        ensures outcome { IfOk result (λ outcome. outcome_content outcome
            ≡ array_of (array_of (map call_result_content self.values.items)
            ∷ stop_value (option_map stop_of self.stopped) ∷ [])) }
        ensures spelled { IfOk result (λ outcome. HasSpelling (outcome_content outcome)) }
    {
        let stop = stop_value(alloc, self.stopped)?;
        let results = AtomicResults {
            results: self.values,
            stop,
        };
        Ok(Outcome::Atomic(Box::new(alloc, results)?))
    }
}
