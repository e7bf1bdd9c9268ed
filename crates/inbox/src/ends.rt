//! The two ends of an inbox.

use crate::names::InboxNames;
use crate::rule::Dealing;
use crossbeam_queue::SegPass;
use std::marker::{Model, PhantomData};

/// The end that posts. Contracts see the number of its inbox and all that was posted.
#[derive(Drop)]
pub struct Poster<T, N: InboxNames> {
    pub(crate) number: u32,
    pub(crate) pass: SegPass<T, Dealing<T>>,
    pub(crate) of: PhantomData<N>,
}

impl<T, N: InboxNames> Model for Poster<T, N> {
    ghost use Rattle.std.specs.Prelude.{◌≡◌, Some, None, true};
    ghost use Rattle.inbox.specs.Ends.{Posting, posting_code};

    ghost Value = { Posting T };

    ghost coded = { posting_code T.code };

    ghost view = { λ p. record { number = p.number; put = p.pass.me.view.client.put } };

    ghost invariant = { λ p. (N.queue p.number ≡ Some record { web = p.pass.web; heap = p.pass.heap }) × (p.pass.me.hand ≡ None) × (p.pass.me.spare ≡ None) × (p.pass.me.view.client.posts ≡ true) };
}

/// The end that takes. Contracts see the number of its inbox, all that was taken, and of what it was told that it was posted.
#[derive(Drop)]
pub struct Taker<T, N: InboxNames> {
    pub(crate) number: u32,
    pub(crate) pass: SegPass<T, Dealing<T>>,
    pub(crate) of: PhantomData<N>,
}

impl<T, N: InboxNames> Model for Taker<T, N> {
    ghost use Rattle.std.specs.Prelude.{◌≡◌, Some, None, true};
    ghost use Rattle.inbox.specs.Ends.{Taking, taking_code};

    ghost Value = { Taking T };

    ghost coded = { taking_code T.code };

    ghost view = { λ t. record { number = t.number; taken = t.pass.me.view.client.taken; told = t.pass.me.view.client.told } };

    ghost invariant = { λ t. (N.queue t.number ≡ Some record { web = t.pass.web; heap = t.pass.heap }) × (t.pass.me.hand ≡ None) × (t.pass.me.spare ≡ None) × (t.pass.me.view.client.takes ≡ true) };
}
