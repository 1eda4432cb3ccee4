// Processes and steps by their names.
ghost use Rattle.std.specs.Prelude.{◌≡◌, IfSome, IfNone, None, Some};
ghost use Rattle.audit_text.specs.Logs.{plan_at, plan_named, plans_in, step_named};

use process_text::is_word;
use process_tree::{Plan, Tree};

/// The plan of the process of this name.
pub fn plan_named<'a>(plans: &'a [Plan], name: &[u8]) -> Option<&'a Plan>
    ensures some { IfSome result (λ plan. plan_named plans.now name.now ≡ Some plan.now) }
    ensures none { IfNone result (plan_named plans.now name.now ≡ None) }
{
    let mut rest = plans;
    while let [plan, after @ ..] = rest {
        if is_word(plan.name.bytes(), name) {
            return Some(plan);
        }
        rest = after;
    }
    None
}

/// The step of this name.
pub fn step_named(name: &[u8], plan: &Plan) -> Option<u16>
    ensures { result ≡ step_named name.now plan.now }
{
    let tree: &Tree = &plan.tree;
    let mut step = 0;
    while step < tree.count() {
        if is_word(tree.step(step).name.bytes(), name) {
            return Some(step);
        }
        step += 1;
    }
    None
}

/// The plan of process i.
pub fn plan_at<'a>(started: &[&'a Plan], i: u32) -> Option<&'a Plan>
    ensures some { IfSome result (λ plan. plan_at (plans_in started.now) i ≡ Some plan.now) }
    ensures none { IfNone result (plan_at (plans_in started.now) i ≡ None) }
{
    if i == 0 {
        return None;
    }
    match started.get(i as usize - 1) {
        Some(plan) => Some(*plan),
        None => None,
    }
}
