// Plays a paper, in the order and for the cycles that are asked for.
use super::layout::Paper;
use super::line::Output;
use super::order::Order;
use super::text::{Counted, Joined};
use super::{cycles, listing};
use paper::FileSizes;
use std::alloc::AllocError;
use std::fmt;

// What is asked for: an order and cycles in place of the paper's own, and whether the climbs are shown.
#[derive(Default, Drop)]
pub struct Asked {
    pub order: Option<Order>,
    pub cycles: Option<u16>,
    pub climbs: bool,
}

// How a paper is played: the order, the cycles asked, and whether the climbs are shown.
#[derive(Drop)]
pub struct Plan {
    pub order: Order,
    pub cycles: u16,
    pub climbs: bool,
}

// The paper's book, or ascending where it has none.
fn own_order(paper: &Paper) -> Result<Order, AllocError> {
    if paper.book.is_empty() {
        Ok(Order::Ascending)
    } else {
        Ok(Order::Book(paper.book.clone()?))
    }
}

impl Plan {
    fn new(paper: &Paper, asked: Asked) -> Result<Plan, AllocError> {
        let Asked {
            order,
            cycles,
            climbs,
        } = asked;
        let order = match order {
            Some(order) => order,
            None => own_order(paper)?,
        };
        Ok(Plan {
            order,
            cycles: cycles.unwrap_or(paper.cycles),
            climbs,
        })
    }
}

fn print_sizes(out: Output, sizes: FileSizes, plan: &Plan) -> fmt::Result {
    let counts = [
        Counted::new(sizes.nodes, "node"),
        Counted::new(sizes.exprs, "expression"),
        Counted::new(sizes.vars, "variable"),
        Counted::new(sizes.chans, "channel"),
    ];
    let order = &plan.order;
    out.say(format_args!(
        "{}; {} asked, {order}",
        Joined::new(&counts, 4, ", "),
        Counted::new(plan.cycles, "cycle"),
    ))
}

// Prints and plays a paper.
pub fn play(out: Output, mut paper: Paper, asked: Asked) -> fmt::Result {
    let plan = Plan::new(&paper, asked)?;
    out.end(&mut paper.heading)?;
    print_sizes(out, paper.sizes, &plan)?;
    out.say("")?;
    listing::print(out, &paper, plan.climbs)?;
    out.say("")?;
    cycles::play(out, &paper, &plan)
}
