// The calls on a cluster that leave its stations as they are.
ghost use Rattle.std.specs.Prelude.{◌≡◌, length};
ghost use Rattle.words.specs.Refusals.{numbered};
ghost use Rattle.mailboxes.specs.Mailboxes.{counted, discard_answer, discard_leaves, read_answer, read_leaves, Kept};
ghost use Rattle.histories.specs.Calls.{discard as discarding, count as counting, fits as fitting, peek as peeking, number as number_is, room_for, done_if, number_if, Step};
ghost use Rattle.stations.specs.Stored.{cluster_of};

use crdt::kind::Crdt;
use mailboxes::mailbox::Mailbox;
use stations::station::Station;
use words::refusal::Refusal;

// Removes message k from the mailbox.
pub fn discard<C: Crdt, M: Mailbox>(
    stations: &[Station<C>],
    mailbox: &mut M,
    k: usize,
) -> Result<(), Refusal>
    ensures answer { numbered result ≡ discard_answer (M.Mailbox.waiting mailbox.old) k }
    ensures mailbox { M.Mailbox.waiting mailbox.new ≡ discard_leaves (M.Mailbox.waiting mailbox.old) k }
    ensures refused { Kept result mailbox.old mailbox.new }
    ensures step { Step C.Crdt (cluster_of C.Crdt M.Mailbox stations.now mailbox.old) (discarding k) (done_if (numbered result)) (cluster_of C.Crdt M.Mailbox stations.now mailbox.new) }
{
    mailbox.discard(k)
}

// How many messages wait, or 65,535 where there are more.
pub fn count<C: Crdt, M: Mailbox>(stations: &[Station<C>], mailbox: &M) -> u16
    ensures answer { result ≡ counted (M.Mailbox.waiting mailbox.now) }
    ensures step { Step C.Crdt (cluster_of C.Crdt M.Mailbox stations.now mailbox.now) counting (number_is result) (cluster_of C.Crdt M.Mailbox stations.now mailbox.now) }
{
    mailbox.count()
}

// Whether a message of n words would be taken now.
pub fn fits<C: Crdt, M: Mailbox>(stations: &[Station<C>], mailbox: &M, n: usize) -> bool
    ensures answer { result ≡ M.Mailbox.takes mailbox.now n }
    ensures step { Step C.Crdt (cluster_of C.Crdt M.Mailbox stations.now mailbox.now) (fitting n) (room_for result) (cluster_of C.Crdt M.Mailbox stations.now mailbox.now) }
{
    mailbox.fits(n)
}

// Copies message k to the front of the given words, and answers its length.
pub fn read<C: Crdt, M: Mailbox>(
    stations: &[Station<C>],
    mailbox: &M,
    k: usize,
    words: &mut [u32],
) -> Result<usize, Refusal>
    ensures answer { numbered result ≡ read_answer (M.Mailbox.waiting mailbox.now) k (length words.old) }
    ensures words { words.new ≡ read_leaves (M.Mailbox.waiting mailbox.now) k words.old }
    ensures step { Step C.Crdt (cluster_of C.Crdt M.Mailbox stations.now mailbox.now) (peeking k (length words.old)) (number_if (numbered result)) (cluster_of C.Crdt M.Mailbox stations.now mailbox.now) }
{
    mailbox.read(k, words)
}
