//! An inbox that has no number yet.
ghost use Rattle.std.specs.Prelude.{◌≡◌, Some, []};

use crate::ends::{Poster, Taker};
use crate::names::InboxNames;
use crate::queue::{Inbox, Line};
use crate::rule::{Dealing, Fair, Parted};
use crossbeam_queue::{RuledSegQueue, SegPass};
use std::alloc::{AllocError, Global};
use std::marker::{Model, PhantomData};

/// An empty inbox with its two ends, before it has a number. Contracts see the name of its queue.
#[derive(Drop)]
pub struct Opening<T: Drop> {
    line: Line<T>,
    poster: SegPass<T, Dealing<T>>,
    taker: SegPass<T, Dealing<T>>,
}

impl<T: Drop> Model for Opening<T> {
    ghost use Rattle.std.specs.Prelude.{◌≡◌, true, false, []};
    ghost use Rattle.std.specs.contracts.alloc.Global as global;
    ghost use Rattle.crossbeam_queue.specs.SegTies.{IsSegPassOf, seg_id_coded};
    ghost use Rattle.inbox.specs.Dealings.{dealing};
    ghost use Rattle.inbox.specs.Queues.{QueueId};

    ghost Value = { QueueId };

    ghost coded = { seg_id_coded global.the_row.coded };

    ghost view = { λ o. o.line.ruled };

    ghost invariant = { λ o. IsSegPassOf o.line.ruled o.poster × IsSegPassOf o.line.ruled o.taker × (o.poster.me.view.client ≡ dealing true false [] [] []) × (o.taker.me.view.client ≡ dealing false true [] [] []) };
}

impl<T: Drop> Opening<T> {
    /// An inbox in which nothing was posted. It takes memory.
    pub fn new(alloc: Global) -> Result<Opening<T>, AllocError> {
        let (ruled, mut poster) = RuledSegQueue::<T, Dealing<T>, Fair>::with_rule(alloc)?;
        let taker = ruled.another::<Parted>(&mut poster);
        Ok(Opening {
            line: Line { ruled },
            poster,
            taker,
        })
    }

    /// The inbox of this number, and its ends.
    pub fn named<N: InboxNames>(self, number: u32) -> (Inbox<T, N>, Poster<T, N>, Taker<T, N>)
        requires { N.queue number ≡ Some self }
        ensures inbox { result.0 ≡ number }
        ensures poster { result.1 ≡ record { number = number; put = [] } }
        ensures taker { result.2 ≡ record { number = number; taken = []; told = [] } }
    {
        let Opening {
            line,
            poster,
            taker,
        } = self;
        (
            Inbox {
                number,
                line,
                of: PhantomData,
            },
            Poster {
                number,
                pass: poster,
                of: PhantomData,
            },
            Taker {
                number,
                pass: taker,
                of: PhantomData,
            },
        )
    }
}
