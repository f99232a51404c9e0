// The members of an object, and the text of the object that they make.
ghost use Rattle.std.specs.Prelude.{◌≡◌, map, string_bytes, IfOk};
ghost use Rattle.serde_json.specs.View.{view, members_view};
ghost use Rattle.objects.specs.Objects.{member as member_of, steps_array, put_member, object_of, written};

use model::ShortPlan;
use serde_json::{Map, Value, put};
use std::alloc::{AllocError, Global};

// A member of an object: its key, and a number, a word, or the steps of a plan.
#[derive(Clone, Copy)]
pub enum Member<'a> {
    Number(&'a str, u64),
    Word(&'a str, &'a str),
    Steps(&'a str, ShortPlan),
}

// The steps of a plan.
fn steps_value(alloc: Global, plan: ShortPlan) -> Result<Value, AllocError>
    ensures { IfOk result (λ v. view v ≡ steps_array plan) }
{
    let mut steps = Vec::new(alloc);
    for step in plan.steps() {
        steps.push(Value::from(*step))?;
    }
    Ok(Value::Array(steps))
}

impl Member<'_> {
    // Puts it into an object.
    fn put_into(&self, object: &mut Map<String, Value>, alloc: Global) -> Result<(), AllocError>
        ensures { IfOk result (λ _. members_view object.new.entries ≡ put_member (member_of self.now) (members_view object.old.entries)) }
    {
        match *self {
            Member::Number(key, number) => put(object, alloc, key, Value::from(number)),
            Member::Word(key, word) => {
                let value = Value::try_from_str(alloc, word)?;
                put(object, alloc, key, value)
            }
            Member::Steps(key, plan) => {
                let value = steps_value(alloc, plan)?;
                put(object, alloc, key, value)
            }
        }
    }
}

// The object that members make.
fn object(alloc: Global, members: &[Member]) -> Result<Value, AllocError>
    ensures { IfOk result (λ v. view v ≡ object_of (map member_of members.now)) }
{
    let mut object = Map::new(alloc);
    for member in members {
        member.put_into(&mut object, alloc)?;
    }
    Ok(Value::Object(object))
}

// The text of the object that members make.
pub fn write_object(alloc: Global, members: &[Member]) -> Result<String, AllocError>
    ensures { IfOk result (λ s. string_bytes s ≡ written (map member_of members.now)) }
{
    object(alloc, members)?.to_string(alloc)
}
