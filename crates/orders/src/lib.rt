// The data of INVOKE_DPE_COMMAND (document 02, §5), read as one of the four tree commands.
#![tactic(auto)]

ghost use Rattle.std.specs.Prelude.{◌≡◌, cond, eqb, length, drop, unwrap_or, Some, None};
ghost use Rattle.journal.specs.Fields.{read_fields};
ghost use Rattle.journal.specs.Entries.{extend_fields, handle_fields};
ghost use Rattle.journal_bytes.specs.Results.{derive_read};
ghost use Rattle.opening.specs.Orders.{command_in};
ghost use Rattle.orders.specs.Told.{order_told, whole_told};

use journal_bytes::entry::DIGEST_BYTES;
use journal_bytes::read::{DeriveFields, take_bytes, take_derive_fields};
use layout::HANDLE_BYTES;

// The first byte of each command's data: constants, since the one match on them is all that they are for.
const DERIVE_COMMAND: u8 = 1;

const EXTEND_COMMAND: u8 = 2;

const ROTATE_COMMAND: u8 = 3;

const DESTROY_COMMAND: u8 = 4;

// A derive's `retain` may be any number.
#[derive(Clone, Copy)]
pub enum Order {
    Derive(DeriveFields),
    Extend {
        handle: [u8; HANDLE_BYTES],
        digest: [u8; DIGEST_BYTES],
    },
    Rotate([u8; HANDLE_BYTES]),
    Destroy([u8; HANDLE_BYTES]),
    Malformed,
}

// Nothing behind a command's fields.
fn at_end(rest: &[u8]) -> Option<()>
    ensures { result ≡ cond (eqb (length rest.now) 0) (Some tt) None }
{
    if rest.is_empty() { Some(()) } else { None }
}

// A derive's handle, retain, type and digest, and nothing behind them.
#[tactic(auto, unfolding(crate::specs::Told::whole_told))]
fn derive_order(s: &[u8]) -> Option<Order>
    ensures { result ≡ whole_told (derive_read s.now) (λ fields. Order.Derive fields) }
{
    let (fields, rest) = take_derive_fields(s).ok()?;
    at_end(rest)?;
    Some(Order::Derive(fields))
}

// An extend's handle and digest, and nothing behind them.
#[tactic(auto, unfolding(crate::specs::Told::whole_told, journal_bytes::specs::Results::bytes_read, journal::specs::Fields::read_fields))]
fn extend_order(s: &[u8]) -> Option<Order>
    ensures { result ≡ whole_told (read_fields extend_fields s.now) (λ vs. Order.Extend vs.0 vs.1.0) }
{
    let (handle, rest) = take_bytes(s).ok()?;
    let (digest, rest) = take_bytes(rest).ok()?;
    at_end(rest)?;
    Some(Order::Extend { handle, digest })
}

// The handle of a rotate or a destroy, and nothing behind it.
#[tactic(auto, unfolding(crate::specs::Told::whole_told, journal_bytes::specs::Results::bytes_read, journal::specs::Fields::read_fields))]
fn lone_handle(s: &[u8]) -> Option<[u8; HANDLE_BYTES]>
    ensures { result ≡ whole_told (read_fields handle_fields s.now) (λ vs. vs.0) }
{
    let (handle, rest) = take_bytes(s).ok()?;
    at_end(rest)?;
    Some(handle)
}

// The command at the front, if the data is one's.
#[tactic(auto, using(crate::proofs::Whole::order_none, crate::proofs::Whole::order_derive, crate::proofs::Whole::order_extend, crate::proofs::Whole::order_rotate, crate::proofs::Whole::order_destroy, crate::proofs::Whole::order_unlisted))]
fn order_in(content: &[u8]) -> Option<Order>
    ensures { unwrap_or result Order.Malformed ≡ order_told (command_in content.now) }
{
    let [command, fields @ ..] = content else {
        return None;
    };
    match *command {
        DERIVE_COMMAND => derive_order(fields),
        EXTEND_COMMAND => extend_order(fields),
        ROTATE_COMMAND => lone_handle(fields).map(Order::Rotate),
        DESTROY_COMMAND => lone_handle(fields).map(Order::Destroy),
        _ => None,
    }
}

// The command from an index on. Malformed: no bytes there, a first byte of no command, a field that is cut
// or a number not in shortest form, bytes left over.
#[tactic(auto, using(crate::proofs::Whole::order_past))]
pub fn read_order(bytes: &[u8], at: usize) -> Order
    ensures { result ≡ order_told (command_in (drop at bytes.now)) }
{
    if bytes.len() <= at {
        return Order::Malformed;
    }
    order_in(&bytes[at..]).unwrap_or(Order::Malformed)
}
