use super::orders::{Order, Orders};
use drawn::Drawn;
use drawn::limits::MOST_VERTICES;
use helm::{Turn, hear, steer};
use std::io;

/// Who makes the calls of a voyage, on which chart and by which plan, and where it tells them.
#[derive(Drop)]
pub struct Crew<'a> {
    pub rt: &'a HostRuntime,
    pub chart: &'a Drawn,
    pub plan: [u16; MOST_VERTICES],
    pub tally: [u64; 4],
}

impl<'a> Crew<'a> {
    /// Makes the calls that the orders tell, until they end or fail. The turn
    /// comes back either way, so that the voyage can be finished.
    pub fn make_calls(
        &mut self,
        mut turn: Turn,
        orders: &mut Orders,
    ) -> (Turn, anyhow::Result<()>) {
        for _ in 0..u64::MAX {
            let order = match orders.call() {
                Ok(Some(order)) => order,
                Ok(None) => break,
                Err(fault) => return (turn, Err(fault)),
            };
            let (next, told) = self.obey(turn, order);
            turn = next;
            if let Err(fault) = told {
                return (turn, Err(fault.into()));
            }
        }
        (turn, Ok(()))
    }

    /// Makes one call and tells how it ended. A call out of turn is not made.
    fn obey(&mut self, turn: Turn, order: Order) -> (Turn, io::Result<()>) {
        let answer = match (order, turn) {
            (Order::Steer, Turn::Ours(ours)) => steer(
                ours,
                self.chart,
                &self.plan,
                &mut self.tally,
            ).map_err(|(back, refusal)| (Turn::Ours(back), refusal)),
            (Order::Hear(number), Turn::Harbours(theirs)) => {
                hear(theirs, self.chart, number, &mut self.tally).map_err(|(back, refusal)| (
                    Turn::Harbours(back),
                    refusal,
                ))
            }
            // An arm for each: told through the order, it took a third more instructions.
            (Order::Steer, turn) => return (turn, println!(self.rt; "steer: out of turn")),
            (Order::Hear(number), turn) => {
                return (turn, println!(self.rt; "hear={number}: out of turn"));
            }
        };
        match answer {
            Ok(next) => {
                let told = self.tell(&next);
                (next, told)
            }
            Err((back, refusal)) => (back, println!(self.rt; "{order}: {refusal}")),
        }
    }

    /// Whose turn it is, and where.
    pub fn tell(&self, turn: &Turn) -> io::Result<()> {
        let vertex = turn.vertex();
        match turn {
            Turn::Ours(_) => println!(self.rt; "our turn at {vertex}"),
            Turn::Harbours(_) => println!(self.rt; "the harbour's turn at {vertex}"),
        }
    }
}
