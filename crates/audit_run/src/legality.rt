// Whether a history is legal, and what is printed of that.
ghost use Rattle.std.specs.Prelude.{◌≡◌, ◌++◌, ◌-◌, map, length, codes, decimal, IfOk, IsTrue, OnOk};
ghost use Rattle.std.specs.List.{slice_get};
ghost use Rattle.std.specs.Option.{option_to_list};
ghost use Rattle.process_text.specs.Canonical.{line_of};
ghost use Rattle.process_report.specs.Blocks.{rule_word};
ghost use Rattle.process_report.specs.Lines.{event_line, text_of};
ghost use Rattle.process_report.specs.Report.{form_of};
ghost use Rattle.schedule_model.specs.Course.{courses_of};
ghost use Rattle.schedule_model.specs.Laws.{IsPlanned};
ghost use Rattle.schedule_model.specs.OwnOrder.{is_in_own_order};
ghost use Rattle.audit_run.specs.History.{first_refused, legality_text, rule_part, AreRuled, IsRuleOf};
ghost use Rattle.named_conflicts.specs.Under.{HasItsTable};

use commute_table::Catalog;
use event_rules::{Rule, refusing_rule};
use history_judging::{LegalError, legal};
use process_report::{form_of, process_name, put_entries, put_line};
use process_tree::{Entry, Plan};
use schedule_model::{Event, History, first_illegal_is_exact};
use std::alloc::{AllocError, Global};

/// The first event of a history that may not come, by the conflicts of a catalog.
pub fn first_refused(alloc: Global, c: &Catalog, h: &History) -> Result<Option<u32>, AllocError>
    requires table { HasItsTable c.now }
    requires planned { IsPlanned (length c.now.ops) h.now.plans h.now.events }
    ensures { IfOk result (λ first. first ≡ first_refused c.now h.now) }
{
    first_illegal_is_exact();
    match legal(alloc, h, &c.conflicts) {
        Ok(()) => Ok(None),
        Err(LegalError::At(n)) => Ok(Some(n)),
        Err(LegalError::NoMemory) => Err(AllocError),
    }
}

// The rule by which an event is refused, if there is one.
fn rule_of(
    alloc: Global,
    c: &Catalog,
    h: &History,
    first: Option<u32>,
) -> Result<Option<Rule>, AllocError>
    requires table { HasItsTable c.now }
    requires planned { IsPlanned (length c.now.ops) h.now.plans h.now.events }
    requires own_order { IsTrue (is_in_own_order (courses_of h.now.plans) h.now.events) }
    requires first { first ≡ first_refused c.now h.now }
    ensures { IfOk result (λ rule. IsRuleOf c.now h.now first rule) }
{
    match first {
        Some(n) => Ok(Some(refusing_rule(alloc, &c.conflicts, h, n)?)),
        None => Ok(None),
    }
}

fn rule_word(rule: Rule) -> &'static [u8]
    ensures { result.now ≡ rule_word rule }
{
    match rule {
        Rule::A0 => b"A0",
        Rule::A1 => b"A1",
        Rule::A2 => b"A2",
        Rule::A3 => b"A3",
        Rule::A4 => b"A4",
        Rule::A5 => b"A5",
    }
}

// Writes the line of an entry.
fn put_act(
    alloc: Global,
    c: &Catalog,
    plans: &[Plan],
    entry: Entry,
    out: &mut Vec<u8>,
) -> Result<(), AllocError>
    ensures { OnOk result (out.new.items
        ≡ out.old.items ++ line_of (event_line (form_of c.now) plans.now c.now.ops (Event.Act entry))) }
{
    put_entries(alloc, form_of(c), plans, c.ops.as_slice(), &[entry], out)
}

// Writes the line of an event.
fn put_event(
    alloc: Global,
    c: &Catalog,
    plans: &[Plan],
    event: Event,
    out: &mut Vec<u8>,
) -> Result<(), AllocError>
    ensures { OnOk result (out.new.items ≡ out.old.items ++ line_of (event_line (form_of c.now) plans.now c.now.ops event)) }
{
    match event {
        Event::Start(i) => {
            let number = format!(in alloc; "{i}")?;
            put_line(out, &[b"start", number.as_bytes(), process_name(plans, i)])
        }
        Event::Act(entry) => put_act(alloc, c, plans, entry, out),
        Event::End(i) => {
            let number = format!(in alloc; "{i}")?;
            put_line(out, &[b"end", number.as_bytes()])
        }
    }
}

// Writes the line of the event at a place, counted from 1, if there is one.
fn put_event_at(
    alloc: Global,
    c: &Catalog,
    h: &History,
    n: u32,
    out: &mut Vec<u8>,
) -> Result<(), AllocError>
    ensures { OnOk result (out.new.items ≡ out.old.items
        ++ text_of (map (event_line (form_of c.now) h.now.plans c.now.ops) (option_to_list (slice_get h.now.events (n - 1))))) }
{
    match h.events.as_slice().get((n as usize).saturating_sub(1)) {
        Some(event) => put_event(alloc, c, h.plans.as_slice(), *event, out),
        None => Ok(()),
    }
}

// Writes ` rule R`, where there is one.
fn put_rule(rule: Option<Rule>, out: &mut Vec<u8>) -> Result<(), AllocError>
    ensures { OnOk result (out.new.items ≡ out.old.items ++ rule_part rule) }
{
    if let Some(rule) = rule {
        out.extend_from_slice(b" rule ")?;
        out.extend_from_slice(rule_word(rule))?;
    }
    Ok(())
}

// Writes `not legal at N rule R`.
fn put_refused(
    alloc: Global,
    n: u32,
    rule: Option<Rule>,
    out: &mut Vec<u8>,
) -> Result<(), AllocError>
    ensures { OnOk result (out.new.items ≡ out.old.items ++ codes "not legal at " ++ decimal n ++ rule_part rule ++ codes "\n") }
{
    let head = format!(in alloc; "not legal at {n}")?;
    out.extend_from_slice(head.as_bytes())?;
    put_rule(rule, out)?;
    out.push(b'\n')?;
    Ok(())
}

// `legal`, or `not legal at N rule R` and the line of that event.
fn text_of_rule(
    alloc: Global,
    c: &Catalog,
    h: &History,
    first: Option<u32>,
    rule: Option<Rule>,
) -> Result<Vec<u8>, AllocError>
    requires { IsRuleOf c.now h.now first rule }
    ensures { IfOk result (λ text. text.items ≡ legality_text c.now h.now first) }
{
    let Some(n) = first else {
        return b"legal\n".to_vec(alloc);
    };
    let mut text = Vec::new(alloc);
    put_refused(alloc, n, rule, &mut text)?;
    put_event_at(alloc, c, h, n, &mut text)?;
    Ok(text)
}

/// `legal`, or `not legal at N rule R` and the line of that event.
pub fn legality_text(
    alloc: Global,
    c: &Catalog,
    h: &History,
    first: Option<u32>,
) -> Result<Vec<u8>, AllocError>
    requires table { HasItsTable c.now }
    requires planned { IsPlanned (length c.now.ops) h.now.plans h.now.events }
    requires own_order { IsTrue (is_in_own_order (courses_of h.now.plans) h.now.events) }
    requires first { first ≡ first_refused c.now h.now }
    ensures text { IfOk result (λ text. text.items ≡ legality_text c.now h.now first) }
    ensures ruled { IfOk result (λ _. AreRuled c.now h.now) }
{
    let rule = rule_of(alloc, c, h, first)?;
    text_of_rule(alloc, c, h, first, rule)
}
