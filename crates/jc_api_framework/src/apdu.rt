//! The methods of `APDU`.

pub(crate) mod buffer;
pub(crate) mod class;
pub(crate) mod current;
pub(crate) mod phase;
pub(crate) mod queries;
pub(crate) mod receive;
pub(crate) mod send;
pub(crate) mod send_long;

ghost use Rattle.std.specs.Prelude.{◌≡◌, false};
ghost use Rattle.jc_memory.specs.Programs.{Executes};
ghost use Rattle.jc_world.specs.Objects.{short_argument};
ghost use Rattle.jc_world.specs.NativeCalls.{after_call, if_some};
ghost use Rattle.jc_api_framework.specs.Apdu.{apdu_call, apdu_get_buffer, apdu_send_bytes, apdu_set_outgoing_length};

use crate::apdu::buffer::buffer;
use crate::apdu::class::{
    channel_of, class_byte, is_chained, is_interindustry, is_secured, is_valid_class,
};
use crate::apdu::current::{apdu_get_current_apdu, apdu_get_current_apdu_buffer};
use crate::apdu::queries::{
    apdu_get_current_state, apdu_get_incoming_length, apdu_get_offset_cdata, by_protocol,
};
use crate::apdu::receive::{apdu_receive_bytes, apdu_set_incoming_and_receive};
use crate::apdu::send::{
    apdu_send_bytes, apdu_set_outgoing, apdu_set_outgoing_and_send, apdu_set_outgoing_length,
    apdu_set_outgoing_no_chaining,
};
use crate::apdu::send_long::apdu_send_bytes_long;
use jc_frames::Cell;
use jc_linker::linked::Linked;
use jc_memory::Memory;
use jc_platform::names::ApdusMethod;
use jc_words::WordStore;
use jc_world::arguments::short_argument;
use jc_world::{NativeResult, StepExit, boolean, short};

// No node address is used.
const NODE_ADDRESS: i16 = 0;

// How many bytes a block has: of T=1, either way; of T=0, received and sent.
const BLOCK_SIZE: i16 = 254;

const IN_BLOCK_SIZE: i16 = 1;

const OUT_BLOCK_SIZE: i16 = 258;

/// `APDU.getBuffer`: returns the APDU buffer.
#[inline(always)]
pub fn apdu_get_buffer<S: WordStore>(memory: &Memory<S>) -> Result<NativeResult, StepExit>
    requires up { memory.now.heap.down ≡ false }
    ensures { Executes (apdu_get_buffer memory.now) memory.now (after_call result memory.now) }
{
    let buffer = buffer(memory)?;
    Ok(NativeResult::ReturnValue(Cell::Reference(buffer)))
}

// `APDU.sendBytes`, with its arguments.
#[inline(always)]
fn send_bytes<S: WordStore>(args: &[Cell], memory: &mut Memory<S>) -> Result<NativeResult, StepExit>
    requires up { memory.old.heap.down ≡ false }
    ensures { Executes (if_some (short_argument args.now 1) (λ start. if_some
        (short_argument args.now 2) (λ count. apdu_send_bytes start count memory.old))) memory.old
        (after_call result memory.new) }
{
    let start = short_argument(args, 1)?;
    let count = short_argument(args, 2)?;
    apdu_send_bytes(start, count, memory)
}

// `APDU.setOutgoingLength`, with its argument.
#[inline(always)]
fn set_outgoing_length<S: WordStore>(
    args: &[Cell],
    memory: &mut Memory<S>,
) -> Result<NativeResult, StepExit>
    ensures { Executes (if_some (short_argument args.now 1) (λ count. apdu_set_outgoing_length count
        memory.old)) memory.old (after_call result memory.new) }
{
    let count = short_argument(args, 1)?;
    apdu_set_outgoing_length(count, memory)
}

/// A call of a method of `APDU`.
#[tactic(auto, unfolding(crate::specs::Apdu::apdu_call))]
#[inline(never)]
pub fn call_apdu<S: WordStore>(
    method: ApdusMethod,
    args: &[Cell],
    memory: &mut Memory<S>,
    linked: &Linked,
) -> Result<NativeResult, StepExit>
    requires up { memory.old.heap.down ≡ false }
    ensures { Executes (apdu_call method args.now linked.now memory.old) memory.old
        (after_call result memory.new) }
{
    match method {
        ApdusMethod::ApduGetBuffer => apdu_get_buffer(memory),
        ApdusMethod::ApduReceiveBytes => apdu_receive_bytes(args, memory),
        ApdusMethod::ApduSendBytes => send_bytes(args, memory),
        ApdusMethod::ApduSetIncomingAndReceive => apdu_set_incoming_and_receive(memory),
        ApdusMethod::ApduSetOutgoing => apdu_set_outgoing(memory),
        ApdusMethod::ApduSetOutgoingNoChaining => apdu_set_outgoing_no_chaining(memory),
        ApdusMethod::ApduSetOutgoingAndSend => apdu_set_outgoing_and_send(args, memory),
        ApdusMethod::ApduSetOutgoingLength => set_outgoing_length(args, memory),
        ApdusMethod::ApduGetIncomingLength => apdu_get_incoming_length(memory),
        ApdusMethod::ApduGetOffsetCdata => apdu_get_offset_cdata(memory),
        ApdusMethod::ApduSendBytesLong => apdu_send_bytes_long(args, memory, linked),
        ApdusMethod::ApduGetCurrentState => apdu_get_current_state(memory),
        ApdusMethod::ApduGetProtocol => by_protocol(1, 0, memory),
        ApdusMethod::ApduGetNad => Ok(short(NODE_ADDRESS)),
        ApdusMethod::ApduGetInBlockSize => by_protocol(BLOCK_SIZE, IN_BLOCK_SIZE, memory),
        ApdusMethod::ApduGetOutBlockSize => by_protocol(BLOCK_SIZE, OUT_BLOCK_SIZE, memory),
        ApdusMethod::ApduGetClaChannel => Ok(short(i16::from(channel_of(class_byte(memory))))),
        ApdusMethod::ApduIsIsoInterindustryCla => Ok(boolean(is_interindustry(class_byte(memory)))),
        ApdusMethod::ApduIsCommandChainingCla => Ok(boolean(is_chained(class_byte(memory)))),
        ApdusMethod::ApduIsSecureMessagingCla => Ok(boolean(is_secured(class_byte(memory)))),
        ApdusMethod::ApduIsValidCla => Ok(boolean(is_valid_class(class_byte(memory)))),
        ApdusMethod::ApduWaitExtension => Ok(NativeResult::ReturnVoid),
        ApdusMethod::ApduGetCurrentApdu => apdu_get_current_apdu(memory),
        ApdusMethod::ApduGetCurrentApduBuffer => apdu_get_current_apdu_buffer(memory),
    }
}
