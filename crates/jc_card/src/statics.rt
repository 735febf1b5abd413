//! The static images of a card's packages.
ghost use Rattle.std.specs.Prelude.{◌≡◌, ◌<◌, false, length, IfSome};
ghost use Rattle.std.specs.Option.{option_map};
ghost use Rattle.jc_heap.specs.Component.{record_of};
ghost use Rattle.jc_instructions.specs.StaticImages.{image_word, record_at, word_value};

use crate::card::Card;
use jc_memory::Memory;
use jc_transient::Ref;
use jc_words::WordStore;

impl<S: WordStore> Card<S> {
    /// A word of the static image of the package with a number, from 0; none past its end, or where there is no such package.
    #[tactic(auto, unfolding(jc_instructions::specs::StaticImages::image_word))]
    pub fn static_word(&self, package_number: u8, number: u16) -> Option<u16>
        requires up { self.now.memory.heap.down ≡ false }
        ensures { result ≡ option_map (λ w. word_value self.now.memory.heap.now w)
            (image_word self.now.memory.heap.now package_number number) }
    {
        let owner = record_at(&self.memory, package_number)?;
        let heap = self.memory.heap();
        let begin = heap.statics(owner)?;
        let offset = u32::from(begin) + u32::from(number);
        if offset >= u32::from(heap.record_length(owner)) {
            return None;
        }
        Some(heap.record_word(owner, offset as u16))
    }
}

// The record of the package with this number.
#[tactic(auto, unfolding(jc_instructions::specs::StaticImages::record_at))]
fn record_at<S: WordStore>(memory: &Memory<S>, number: u8) -> Option<Ref>
    requires { memory.now.heap.down ≡ false }
    ensures exact { result ≡ record_at memory.now.heap.now number }
    ensures begun { IfSome result (λ r. 0 < length (record_of memory.now.heap.now r)) }
{
    if number == 0 {
        return None;
    }
    let place = u16::from(number - 1);
    if place >= memory.heap().packages() {
        return None;
    }
    Some(memory.package_address(place))
}
