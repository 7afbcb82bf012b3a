ghost use Rattle.std.specs.Prelude.{Some};
ghost use Rattle.sail.specs.Orders.{order_text};

use anyhow::Context;
use drawn::limits::MOST_VERTICES;
use std::alloc::Global;
use std::fs::File;
use std::io::{BufRead, BufReader};
use std::str::FromStr;
use std::{fmt, fs};

/// The plan's entry where there is no move to make.
const EMPTY: u16 = u16::MAX;

/// One call of the voyage.
#[derive(Clone, Copy, PartialEq, Eq, Debug)]
pub enum Order {
    Steer,
    Hear(usize),
}

/// `steer` or `hear=MOVE`.
impl FromStr for Order {
    type Err = anyhow::Error;

    fn from_str(order: &str) -> anyhow::Result<Order> {
        if order == "steer" {
            return Ok(Order::Steer);
        }
        let number = order
            .strip_prefix("hear=")
            .context("an order is neither steer nor hear=")?;
        Ok(Order::Hear(number.parse::<usize>()?))
    }
}

/// As the order is written.
impl fmt::Display for Order {
    ghost output = { λ order. Some (order_text order) };

    fn fmt<W: fmt::Write>(&self, f: &mut fmt::Formatter<W>) -> fmt::Result {
        match self {
            Order::Steer => write!(f, "steer"),
            Order::Hear(number) => write!(f, "hear={number}"),
        }
    }
}

/// A file of orders, read line by line: `start=VERTEX`, `plan=` with an entry for each vertex, `-`
/// for none, and then `steer` or `hear=MOVE` for each call.
#[derive(Drop)]
pub struct Orders {
    file: BufReader<File>,
    heap: Global,
}

impl Orders {
    /// Opens the file of that path.
    pub fn open(rt: &HostRuntime, path: &str) -> anyhow::Result<Orders> {
        let file = BufReader::new(rt.alloc(), fs::open(rt, path)?)?;
        Ok(Orders {
            file,
            heap: rt.alloc(),
        })
    }

    /// The vertex at which the voyage begins.
    pub fn start(&mut self) -> anyhow::Result<usize> {
        let line = self.line()?;
        let number = line
            .as_str()
            .trim()
            .strip_prefix("start=")
            .context("the orders begin with no start=")?;
        Ok(number.parse::<usize>()?)
    }

    /// The plan, with no move to make where the orders have no entry.
    pub fn plan(&mut self) -> anyhow::Result<[u16; MOST_VERTICES]> {
        let line = self.line()?;
        let entries = line
            .as_str()
            .trim()
            .strip_prefix("plan=")
            .context("the second order is no plan=")?;
        let mut plan = [EMPTY; MOST_VERTICES];
        for (vertex, entry) in entries.split(',').enumerate() {
            let planned = plan
                .get_mut(vertex)
                .context("the plan has more entries than a chart has vertices")?;
            if entry != "-" {
                *planned = entry.parse::<u16>()?;
            }
        }
        Ok(plan)
    }

    /// The next call, or none at the end of the orders.
    pub fn call(&mut self) -> anyhow::Result<Option<Order>> {
        let line = self.line()?;
        match line.as_str().trim() {
            "" => Ok(None),
            order => Ok(Some(order.parse::<Order>()?)),
        }
    }

    /// The next line, empty at the end of the file.
    fn line(&mut self) -> anyhow::Result<String> {
        let mut line = String::new(self.heap);
        self.file.read_line(&mut line)?;
        Ok(line)
    }
}
