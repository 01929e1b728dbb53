// What a host is to do about a batch of items: what fits is added as one group.
ghost use Rattle.std.specs.Prelude.{◌≡◌, ◌<◌, ◌≤◌, ◌+◌, ◌-◌, ◌==◌, length, drop, take, IfOk};
ghost use Rattle.cap_base.specs.declared.codes.Response.TheVariants.{Part};
ghost use Rattle.cap_batch_msgs.specs.declared.body.BatchBody.TheVariants.{BatchAnswer};
ghost use Rattle.cap_msgs.specs.declared.message.Body.TheVariants.{Batch as Of_batch};
ghost use Rattle.cap_entries.specs.Log.{log, setup_of};
ghost use Rattle.cap_host_answers.specs.Answer.{approved_if, answer_batch, agree_so_far};
ghost use Rattle.cap_host_answers.specs.Plain.{batch_taken};
ghost use Rattle.cap_host.specs.Decision.{decided, IsSound};
ghost use Rattle.cap_host.specs.Host.{entries_of, fetched_of, fault_of, Reads};

use crate::decision::Decision;
use crate::host::Host;
use cap_answering::HostFault;
use cap_base::{Item, Response};
use cap_batch_msgs::BatchBody;
use cap_entries::HostEntry;
use cap_host_answers::{approved, differs, expects, replies};
use cap_journal::Journal;
use cap_msgs::Body;

// The answer to a batch of which so many items then stand in the log.
fn batch_answer(x: u64, standing: usize, count: usize) -> Body
    requires low { 1 ≤ x }
    requires high { x ≤ 9223372036854775808 }
    requires few { standing ≤ 200 }
    ensures { result ≡ Of_batch (BatchAnswer (approved_if (standing == count) Part) ((x + standing) - 1)) }
{
    Body::Batch(BatchBody::BatchAnswer {
        response: approved(standing == count, Response::Part),
        last: x + standing as u64 - 1,
    })
}

impl<J: Journal<HostEntry> + Drop> Host<J> {
    // Whether the items are those of the log from this place on, counted from 0.
    fn agrees(&mut self, terminal: u8, from: u64, items: &[Item]) -> Result<bool, HostFault>
        requires within { terminal < length (setup_of (entries_of self.old)).terminals }
        requires there { from + length items.now ≤ length (log (entries_of self.old) terminal) }
        requires small { from + length items.now ≤ 9223372036854775808 }
        ensures value { IfOk result (λ agree. agree ≡ agree_so_far (drop from (log (entries_of self.old) terminal)) items.now) }
        ensures reads { Reads self.old self.new (fault_of result) }
        ensures entries { entries_of self.new ≡ entries_of self.old }
        ensures fetched { fetched_of self.new ≤ fetched_of self.old + length items.now }
    {
        self.idle();
        for (i, item) in items.iter().enumerate() {
            if !self.is_item(terminal, from + i as u64, item)? {
                return Ok(false);
            }
        }
        Ok(true)
    }

    // The items of a batch past the log, of which those that fit are added.
    fn take_batch(
        &mut self,
        terminal: u8,
        x: u64,
        old: usize,
        items: &[Item],
    ) -> Result<Decision, HostFault>
        requires within { terminal < length (setup_of (entries_of self.old)).terminals }
        requires few { length items.now ≤ 100 }
        requires low { 1 ≤ x }
        requires high { x ≤ 9223372036854775808 }
        requires front { old ≤ length items.now }
        requires known { old ≡ length (take ((length (log (entries_of self.old) terminal) + 1) - x) items.now) }
        requires rest { drop old items.now ≡ drop ((length (log (entries_of self.old) terminal) + 1) - x) items.now }
        ensures told { IfOk result (λ decision. decided decision ≡ batch_taken terminal (log (entries_of self.old) terminal) x items.now) }
        ensures sound { IfOk result (λ decision. IsSound (entries_of self.old) decision) }
        ensures reads { Reads self.old self.new (fault_of result) }
        ensures entries { entries_of self.new ≡ entries_of self.old }
        ensures fetched { fetched_of self.new + old ≤ fetched_of self.old + length items.now }
    {
        let taken = self.fitting(terminal, &items[old..])?;
        let body = batch_answer(x, old + taken.len(), items.len());
        if taken.is_empty() {
            Ok(self.tells(replies(self.alloc, body)))
        } else {
            Ok(Decision::Takes {
                terminal,
                items: taken,
                body,
            })
        }
    }

    // Items that the terminal reports from this number on.
    pub(crate) fn advise_many(
        &mut self,
        terminal: u8,
        x: u64,
        items: &[Item],
    ) -> Result<Decision, HostFault>
        requires within { terminal < length (setup_of (entries_of self.old)).terminals }
        requires few { length items.now ≤ 100 }
        ensures told { IfOk result (λ decision. decided decision ≡ answer_batch terminal (log (entries_of self.old) terminal) x items.now) }
        ensures sound { IfOk result (λ decision. IsSound (entries_of self.old) decision) }
        ensures reads { Reads self.old self.new (fault_of result) }
        ensures entries { entries_of self.new ≡ entries_of self.old }
        ensures fetched { fetched_of self.new ≤ fetched_of self.old + length items.now }
    {
        self.idle();
        let known = self.log_len(terminal);
        if x == 0 || known + 1 < x {
            return Ok(self.tells(expects(self.alloc, known + 1)));
        }
        let old = ((known + 1 - x) as usize).min(items.len());
        if !self.agrees(terminal, x - 1, &items[..old])? {
            return Ok(self.tells(differs(self.alloc)));
        }
        self.take_batch(terminal, x, old, items)
    }
}
