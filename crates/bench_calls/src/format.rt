//! Times `signature` on hostile texts, which number their arguments in some order. Standard output has what was listed;
//! standard error has the processor time, as the count doubles.
ghost use Rattle.std.specs.Prelude.{◌<◌};

use c_signature::{FormatFault, signature};
use std::alloc::{AllocError, Global};
use std::io;
use std::time::CpuClock;

/// The order in which a text asks for its arguments.
#[derive(Clone, Copy, Debug)]
enum Order {
    /// None has a number.
    Unnumbered,
    Rising,
    Falling,
    /// Far from one to the next.
    Spread,
    /// All have the number 1.
    Same,
}

const ORDERS: &[Order] = &[
    Order::Unnumbered,
    Order::Rising,
    Order::Falling,
    Order::Spread,
    Order::Same,
];

/// The numbers of directives.
const COUNTS: &[u32] = &[250_000, 500_000, 1_000_000, 2_000_000];

impl Order {
    /// The number of the directive with an index, from 1 to the count.
    fn number_at(self, index: u32, count: u32) -> u32
        requires { index < count }
    {
        match self {
            Order::Unnumbered | Order::Same => 1,
            Order::Rising => index + 1,
            Order::Falling => count - index,
            Order::Spread => (u64::from(index) * 7919 % u64::from(count)) as u32 + 1,
        }
    }
}

/// Adds the directive of a number to a text.
fn push_directive(
    alloc: Global,
    text: &mut String,
    order: Order,
    number: u32,
) -> Result<(), AllocError> {
    if let Order::Unnumbered = order {
        return text.push_str("argument %d ");
    }
    let directive = format!(in alloc; "%{number}$d ")?;
    text.push_str(directive.as_str())
}

/// A text of `count` directives in this order.
fn format_of(alloc: Global, order: Order, count: u32) -> Result<String, AllocError> {
    let mut text = String::new(alloc);
    for index in 0..count {
        push_directive(alloc, &mut text, order, order.number_at(index, count))?;
    }
    Ok(text)
}

/// Lists the arguments of a text. Returns the microseconds that it took, and how many there are.
fn time_signature<R: AllocGlobal + CpuClock>(
    rt: &R,
    text: &str,
) -> io::Result<(u128, Result<usize, FormatFault>)> {
    let start = rt.thread_cpu_time()?;
    let listed = signature(rt.alloc(), text);
    let end = rt.thread_cpu_time();
    let listed = match listed {
        Ok(kinds) => Ok(kinds.len()),
        Err(fault) => Err(fault),
    };
    Ok((end?.saturating_sub(start).as_micros(), listed))
}

/// Lists the arguments of one text, and prints how many there are and how long that took.
fn time_one<R: Print + Eprint + AllocGlobal + CpuClock>(
    rt: &R,
    order: Order,
    count: u32,
    text: &str,
) -> io::Result<()> {
    let bytes = text.len();
    let (micros, listed) = time_signature(rt, text)?;
    match listed {
        Ok(len) => println!(rt; "{order:?} {count}: {len} listed")?,
        Err(fault) => println!(rt; "{order:?} {count}: {fault}")?,
    }
    eprintln!(rt; "{order:?} {count} directives, {bytes} bytes: {micros} us")
}

/// Times a text in this order.
fn time_order<R: Print + Eprint + AllocGlobal + CpuClock>(
    rt: &R,
    order: Order,
    count: u32,
) -> io::Result<()> {
    let text = format_of(rt.alloc(), order, count)?;
    time_one(rt, order, count, &text)
}

/// Times a text without a directive.
fn time_plain<R: Print + Eprint + AllocGlobal + CpuClock>(rt: &R, text: &str) -> io::Result<()> {
    let len = text.len();
    let (micros, listed) = time_signature(rt, text)?;
    println!(rt; "plain {len}: {}", listed.is_ok())?;
    eprintln!(rt; "plain, {len} bytes: {micros} us")
}

/// A text of `len` letters.
fn plain_of(alloc: Global, len: usize) -> Result<String, AllocError> {
    let mut text = String::new(alloc);
    for _ in 0..len {
        text.push('a')?;
    }
    Ok(text)
}

/// Times texts in each order, and one without a directive.
pub fn time_formats<R: Print + Eprint + AllocGlobal + CpuClock>(rt: &R) -> io::Result<()> {
    for order in ORDERS {
        for count in COUNTS {
            time_order(rt, *order, *count)?;
        }
    }
    let text = plain_of(rt.alloc(), 16_000_000)?;
    time_plain(rt, &text)
}
