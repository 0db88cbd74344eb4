// Which block is vacated next, and whether that gains room.
ghost use Rattle.std.specs.Prelude.{◌≡◌, ◌<◌, ◌^◌, [], true, None, length, vec_capacity, IfOk, IfSome};
ghost use Rattle.model_device.specs.Events.{choose_call};
ghost use Rattle.model_device.specs.Legal.{queue_front};
ghost use Rattle.model_device.specs.Vacating.{can_gain};
ghost use Rattle.block_shelf.specs.Vacating.{ListsLive, ListsNone};
ghost use Rattle.defrag_pass.specs.Choosing.{choose_answer};
ghost use Rattle.turn_table.specs.Passes.{view, KeepsNumbers};
ghost use Rattle.live_node.specs.Opening.{WasSafe, state_at};
ghost use Rattle.live_node.specs.Fits.{HubFits};
ghost use Rattle.live_node.specs.Calls.{seen_by, AnswersOnce, IsRight};
ghost use Rattle.live_node.specs.Lives.{opening_at, Holds, IsPassAt};
ghost use Rattle.live_node.specs.Vacates.{CanEmpty, HasListRoom};
ghost use Rattle.live_node.specs.Turns.{ChoosesGaining};

use crate::hub::Hub;
use crate::live::Live;
use crate::machine::LivePass;
use crate::steps::EventCall;
use block_shelf::VacateRefusal;
use defrag_pass::choose_step;
use disk_model::Disk;
use rec_format::Digest;
use std::sync::Wait;

// The block that has waited longest is chosen.
#[derive(Drop)]
struct Choice;

impl EventCall for Choice {
    ghost use Rattle.std.specs.Prelude.{◌≡◌};
    ghost use Rattle.model_device.specs.Events.{choose_call};
    ghost use Rattle.defrag_pass.specs.Choosing.{choose_answer};

    type Answer = Result<Option<u32>, VacateRefusal>;

    ghost call = { λ c. choose_call };

    ghost answers = { λ c result answer. answer ≡ choose_answer result };
}

impl<D: Disk> Live<D> {
    /// Chooses the block that has waited longest, where one waits and vacating it gains room, and lists the digests of its records. That is
    /// one event of the device; else none is chosen, nothing is listed, and there is no event. A worker that is given a block moves its
    /// records out of it by `move_record`. A refusal leaves the state before it, and nothing is listed.
    pub fn choose_gaining<R: Wait>(
        &self,
        rt: &R,
        pass: &mut LivePass<D>,
        list: &mut Vec<Digest>,
    ) -> Result<Option<u32>, VacateRefusal>
        requires pass { IsPassAt self.now pass.old }
        requires room { HasListRoom (opening_at self.now) (vec_capacity list.old) }
        ensures pass { IsPassAt self.now pass.new }
        ensures numbers { KeepsNumbers pass.old pass.new }
        ensures room { vec_capacity list.new ≡ vec_capacity list.old }
        ensures few { length list.new.items < 2 ^ 32 }
        ensures none { ListsNone result list.new.items }
        ensures chooses { ChoosesGaining D.view (opening_at self.now) (view pass.old) (view pass.new) list.new.items result }
    {
        let hub = self.take_hub(rt, pass);
        if !hub.can_vacate() {
            list.clear();
            self.give_back(pass, hub);
            return Ok(None);
        }
        self.choose_in(pass, hub, list)
    }
}

impl<D: Disk> Live<D> {
    // Chooses the block that has waited longest, if one waits, and lists the digests of its records. It is one event of the device.
    pub(crate) fn choose<R: Wait>(
        &self,
        rt: &R,
        pass: &mut LivePass<D>,
        list: &mut Vec<Digest>,
    ) -> Result<Option<u32>, VacateRefusal>
        requires pass { IsPassAt self.now pass.old }
        requires room { HasListRoom (opening_at self.now) (vec_capacity list.old) }
        ensures pass { IsPassAt self.now pass.new }
        ensures numbers { KeepsNumbers pass.old pass.new }
        ensures room { vec_capacity list.new ≡ vec_capacity list.old }
        ensures few { length list.new.items < 2 ^ 31 }
        ensures below { IfOk result (λ chosen. IfSome chosen (λ block. block < (opening_at self.now).shelf.geometry.blocks)) }
        ensures once { (by : AnswersOnce D.view (opening_at self.now) (view pass.old) (view pass.new) choose_call (choose_answer result))
            × (WasSafe D.view (opening_at self.now) → IfOk result (λ chosen. IfSome chosen (λ block. ListsLive (state_at (opening_at self.now) by.past).book block list.new.items))) }
        ensures low { IfOk result (λ chosen. IfSome chosen (λ block. CanEmpty block (state_at (opening_at self.now) (seen_by (view pass.new))).book)) }
    {
        let hub = self.take_hub(rt, pass);
        self.choose_in(pass, hub, list)
    }

    // The same over the hub in hand, which is given back.
    fn choose_in(
        &self,
        pass: &mut LivePass<D>,
        mut hub: Hub<D>,
        list: &mut Vec<Digest>,
    ) -> Result<Option<u32>, VacateRefusal>
        requires pass { Holds self.now None true pass.old }
        requires room { HasListRoom (opening_at self.now) (vec_capacity list.old) }
        requires hub { HubFits D.view (opening_at self.now) (seen_by (view pass.old)) hub.shelf.value hub.tally.value }
        ensures pass { IsPassAt self.now pass.new }
        ensures numbers { KeepsNumbers pass.old pass.new }
        ensures room { vec_capacity list.new ≡ vec_capacity list.old }
        ensures few { length list.new.items < 2 ^ 31 }
        ensures below { IfOk result (λ chosen. IfSome chosen (λ block. block < (opening_at self.now).shelf.geometry.blocks)) }
        ensures none { ListsNone result list.new.items }
        ensures chosen { IfOk result (λ chosen. chosen ≡ queue_front (state_at (opening_at self.now) (seen_by (view pass.old))).book.queue) }
        ensures once { (by : AnswersOnce D.view (opening_at self.now) (view pass.old) (view pass.new) choose_call (choose_answer result)) × (by.past ≡ seen_by (view pass.old)) }
        ensures lists { WasSafe D.view (opening_at self.now)
            → IfOk result (λ chosen. IfSome chosen (λ block. ListsLive (state_at (opening_at self.now) (seen_by (view pass.old))).book block list.new.items)) }
        ensures low { IfOk result (λ chosen. IfSome chosen (λ block. CanEmpty block (state_at (opening_at self.now) (seen_by (view pass.new))).book)) }
    {
        self.known();
        let shelf = &mut *hub.shelf;
        // By its shape a block has fewer than 2^31 records.
        let _shape = shelf.geometry();
        let answer = choose_step(shelf, list);
        self.give_alone(pass, hub, &Choice, &answer);
        answer
    }

    // Whether a block is to be vacated, if one is queued. It is no event.
    pub(crate) fn can_gain<R: Wait>(&self, rt: &R, pass: &mut LivePass<D>) -> bool
        requires pass { IsPassAt self.now pass.old }
        ensures pass { IsPassAt self.now pass.new }
        ensures numbers { KeepsNumbers pass.old pass.new }
        ensures right { IsRight D.view (opening_at self.now) (view pass.old) (view pass.new) [] }
        ensures answer { result ≡ can_gain (state_at (opening_at self.now) (seen_by (view pass.new))).book }
    {
        let hub = self.take_hub(rt, pass);
        let gains = hub.shelf.can_gain();
        self.give_back(pass, hub);
        gains
    }
}
