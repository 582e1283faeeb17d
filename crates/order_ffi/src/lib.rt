// The calls for C and Rust. A slice is a pointer and a number of elements. `include/order.h` has the prototypes.
#![tactic(auto)]

ghost use Rattle.std.specs.Prelude.{◌≡◌, length};
ghost use Rattle.table.specs.Read.{read_of};
ghost use Rattle.model.specs.Site.{name};
ghost use Rattle.model.specs.Calls.{run_of, ready_of, pair_of, comparison_of};
ghost use Rattle.model.specs.Recordings.{prefix_comparison_of, remainder_of};
ghost use Rattle.model.specs.Page.{page_of};
ghost use Rattle.model.specs.Draw.{draw_of};
ghost use Rattle.c_answers.specs.Fields.{check_fields, length_fields, ready_fields, pair_fields, same_fields, remainder_fields, RightFields};

use answers::{Part, Recording};
use c_answers::{OrderCheck, OrderLength, OrderPair, OrderReady, OrderRemainder, OrderSame};

// Whether a file is a task table.
#[unsafe(no_mangle)]
pub extern "C" fn order_check(table: &[u8]) -> OrderCheck
    ensures { result ≡ check_fields (read_of table.now) }
{
    reader::read(table).into()
}

// Runs a schedule from a fresh site and writes the state report of its end.
#[unsafe(no_mangle)]
pub extern "C" fn order_run(table: &[u8], schedule: &[u8], report: &mut [u8]) -> OrderLength
    ensures answer { result ≡ length_fields (run_of table.now schedule.now report.old).result }
    ensures lent { report.new ≡ (run_of table.now schedule.now report.old).lent }
{
    order::run(table, schedule, report).into()
}

// Runs a schedule from a fresh site and lays out the page of its end.
#[unsafe(no_mangle)]
pub extern "C" fn order_page(table: &[u8], schedule: &[u8], buffer: &mut [u8]) -> OrderLength
    ensures answer { result ≡ length_fields (page_of table.now schedule.now buffer.old).result }
    ensures lent { buffer.new ≡ (page_of table.now schedule.now buffer.old).lent }
{
    order::page(table, schedule, buffer).into()
}

// Which actors are ready at the end of a schedule from a fresh site.
#[unsafe(no_mangle)]
pub extern "C" fn order_ready(table: &[u8], schedule: &[u8]) -> OrderReady
    ensures { result ≡ ready_fields (ready_of table.now schedule.now) }
{
    order::ready(table, schedule).into()
}

// Whether two steps, by their names, are dependent.
#[unsafe(no_mangle)]
pub extern "C" fn order_pair(
    table: &[u8],
    actor: u8,
    action: u8,
    actor2: u8,
    action2: u8,
) -> OrderPair
    ensures { result ≡ pair_fields (pair_of table.now (name actor action) (name actor2 action2)) }
{
    order::pair(table, actor, action, actor2, action2).into()
}

// Whether two schedules are the same, and how many pairs of steps were compared.
#[unsafe(no_mangle)]
pub extern "C" fn order_same(table: &[u8], first: &[u8], second: &[u8]) -> OrderSame
    ensures { result ≡ same_fields (comparison_of table.now first.now second.now) }
{
    order::same(table, first, second).into()
}

// Whether two recordings are the same as far as both reach, and how many pairs of those steps were compared.
#[unsafe(no_mangle)]
pub extern "C" fn order_prefix(table: &[u8], first: &[u8], second: &[u8]) -> OrderSame
    ensures { result ≡ same_fields (prefix_comparison_of table.now first.now second.now) }
{
    order::prefix(table, first, second).into()
}

// Which part of which recording is the remainder of the longer: as long as what `remainder` hands
// back, at the end of that recording.
#[unsafe(no_mangle)]
pub extern "C" fn order_remainder<'a>(first: &'a [u8], second: &'a [u8]) -> OrderRemainder
    ensures { result ≡ remainder_fields (remainder_of (length first.now) (length second.now)) }
{
    let length = order::remainder(first, second).len();
    if first.len() < second.len() {
        let from = second.len() - length;
        Part {
            recording: Recording::Second,
            from,
            length,
        }
        .into()
    } else {
        let from = first.len() - length;
        Part {
            recording: Recording::First,
            from,
            length,
        }
        .into()
    }
}

// Draws a schedule from a seed, from a fresh site, and writes its entries.
#[unsafe(no_mangle)]
pub extern "C" fn order_draw(table: &[u8], seed: u32, schedule: &mut [u8]) -> OrderLength
    ensures answer { result ≡ length_fields (draw_of table.now seed schedule.old).result }
    ensures lent { schedule.new ≡ (draw_of table.now seed schedule.old).lent }
{
    order::draw(table, seed, schedule).into()
}

// Writes a route from the first schedule to the second: a chain of exchanges, each by its position.
#[unsafe(no_mangle)]
pub extern "C" fn order_route(
    table: &[u8],
    first: &[u8],
    second: &[u8],
    route: &mut [u16],
) -> OrderLength
    ensures { RightFields table.now first.now second.now route.old route.new result }
{
    order::route(table, first, second, route).into()
}
