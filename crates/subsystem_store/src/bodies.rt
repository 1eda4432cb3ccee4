// The bytes of a store's records.
ghost use Rattle.std.specs.Prelude.{◌≡◌, ◌<◌, ◌≤◌, ◌+◌, take, drop, length, Some, None, if◌then◌else◌};
ghost use Rattle.std.specs.Int.{from_le_bytes, w16, w32, w64};
ghost use Rattle.subsystem_store.specs.Bodies.{prepared_bytes, committed_bytes, verb_of, effect_at, is_amount, record_of};
ghost use Rattle.subsystem_store.specs.Bodies.{prepared_of, committed_of};

use crate::Effect;
use crate::effect::Record;
use resource_box::{Call, Verb};

fn verb_of(code: u8) -> Verb
    ensures { result ≡ verb_of code }
{
    match code {
        5 => Verb::Free,
        4 => Verb::Hold,
        3 => Verb::Put,
        2 => Verb::Look,
        1 => Verb::Take,
        _ => Verb::Add,
    }
}

fn flag(set: bool) -> u8
    ensures { result ≡ (if set then 1 else 0) }
{
    if set { 1 } else { 0 }
}

/// The body of an effect that is prepared.
pub fn prepared_bytes(effect: &Effect) -> [u8; 25]
    ensures { result ≡ prepared_bytes effect.now }
{
    let [n0, n1, n2, n3] = effect.number.to_le_bytes();
    let [p0, p1, p2, p3] = effect.process.to_le_bytes();
    let [s0, s1] = effect.step.to_le_bytes();
    let [k0, k1, k2, k3] = effect.call.key.to_le_bytes();
    let [a0, a1, a2, a3, a4, a5, a6, a7] = effect.call.amount.cast_unsigned().to_le_bytes();
    let undo = flag(effect.undo);
    let verb = effect.call.verb.code();
    [
        16, n0, n1, n2, n3, p0, p1, p2, p3, s0, s1, undo, verb, k0, k1, k2, k3, a0, a1, a2, a3, a4,
        a5, a6, a7,
    ]
}

/// The body that commits all effects up to that of a number.
pub fn committed_bytes(number: u32) -> [u8; 5]
    ensures { result ≡ committed_bytes number }
{
    let [n0, n1, n2, n3] = number.to_le_bytes();
    [17, n0, n1, n2, n3]
}

fn u16_of(bytes: &[u8]) -> u16
    requires { length bytes.now ≡ 2 }
    ensures { result ≡ from_le_bytes w16 bytes.now }
{
    u16::from_le_bytes([bytes[0], bytes[1]])
}

fn u32_of(bytes: &[u8]) -> u32
    requires { length bytes.now ≡ 4 }
    ensures { result ≡ from_le_bytes w32 bytes.now }
{
    u32::from_le_bytes([bytes[0], bytes[1], bytes[2], bytes[3]])
}

fn u64_of(bytes: &[u8]) -> u64
    requires { length bytes.now ≡ 8 }
    ensures { result ≡ from_le_bytes w64 bytes.now }
{
    u64::from_le_bytes([
        bytes[0], bytes[1], bytes[2], bytes[3], bytes[4], bytes[5], bytes[6], bytes[7],
    ])
}

// So many bytes from a place on.
fn part(bytes: &[u8], from: usize, size: usize) -> &[u8]
    requires { from + size ≤ length bytes.now }
    ensures is { result.now ≡ take size (drop from bytes.now) }
    ensures size { length result.now ≡ size }
{
    let (_, rest) = bytes.split_at(from);
    let (part, _) = rest.split_at(size);
    part
}

/// The effect whose fields stand at their places.
pub fn effect_at(body: &[u8]) -> Effect
    requires { length body.now ≡ 25 }
    ensures { result ≡ effect_at body.now }
{
    let call = Call {
        verb: verb_of(body[12]),
        key: u32_of(part(body, 13, 4)),
        amount: u64_of(part(body, 17, 8)).cast_signed(),
    };
    Effect {
        number: u32_of(part(body, 1, 4)),
        process: u32_of(part(body, 5, 4)),
        step: u16_of(part(body, 9, 2)),
        undo: body[11] == 1,
        call,
    }
}

/// Whether an amount is within its limit.
pub fn is_amount(amount: i64) -> bool
    ensures { result ≡ is_amount amount }
{
    amount >= -1_000_000_000 && amount <= 1_000_000_000
}

/// The record of a body, if it is the bytes of one.
pub fn record_of(body: &[u8]) -> Option<Record>
    ensures { result ≡ record_of body.now }
{
    if body.len() == 25 {
        return prepared_of(body);
    }
    if body.len() == 5 {
        return committed_of(body);
    }
    None
}

fn prepared_of(body: &[u8]) -> Option<Record>
    requires { length body.now ≡ 25 }
    ensures { result ≡ prepared_of body.now }
{
    let effect = effect_at(body);
    if prepared_bytes(&effect).as_slice() != body {
        return None;
    }
    if is_amount(effect.call.amount) {
        Some(Record::Prepared(effect))
    } else {
        None
    }
}

fn committed_of(body: &[u8]) -> Option<Record>
    requires { length body.now ≡ 5 }
    ensures { result ≡ committed_of body.now }
{
    let number = u32_of(part(body, 1, 4));
    if committed_bytes(number).as_slice() == body {
        Some(Record::Committed(number))
    } else {
        None
    }
}
