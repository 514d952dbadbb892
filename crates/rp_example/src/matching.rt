//! A matcher: it takes the rows of one partition in their order.
ghost use Rattle.std.specs.Prelude.{◌≡◌, length};

use crate::row;
use anyhow::Result;
use rp_answer::Matcher;
use rp_query::Query;
use rp_value::Table;
use rp_walker::Poll;

/// The price in each row, in order.
const PRICES: [i64; 5] = [10, 8, 6, 9, 7];

/// Rows of one symbol, whose answer is printed as they come.
pub fn run(rt: &HostRuntime, table: &Table, query: Query) -> Result<()> {
    let mut matcher = Matcher::new(rt.alloc(), query);
    for (index, price) in PRICES.iter().enumerate() {
        let time = index as i64 + 1;
        println!(rt; "row {time}")?;
        matcher.push(row(rt.alloc(), table, "x", time, *price)?)?;
        print_items(rt, &mut matcher)?;
    }
    println!(rt; "close")?;
    matcher.close();
    print_items(rt, &mut matcher)
}

/// Prints the items that are certain by now and weren't given yet.
fn print_items(rt: &HostRuntime, matcher: &mut Matcher) -> Result<()>
    ensures end { matcher.new.known.end ≡ matcher.old.known.end }
    ensures rows { length matcher.new.known.rows ≡ length matcher.old.known.rows }
{
    for _poll in 0..u64::MAX {
        match matcher.next(1_000)? {
            Poll::Item(place, item) => println!(rt; "    item {place}: {item:?}")?,
            Poll::Paused => {}
            Poll::Idle => break,
        }
    }
    Ok(())
}
