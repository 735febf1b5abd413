//! The names of the locals and the fields that instructions use.

use crate::explanation::Asked;
use crate::places::aid_text;
use crate::sources::{MethodPlace, Named, field_at, static_from, variable_at};
use crate::text::Text;
use itoa::Buffer;
use jc_frames::decode::decode;
use jc_frames::instr::{FieldOp, Instr, LocalOp};
use jc_linker::target::Target;
use jc_memory::Spot;
use jc_transient::ClassWord;

/// Adds the name that the map has of the local or the field that the instruction at a spot uses.
pub(crate) fn push_operand(text: &mut Text, spot: Spot, asked: &Asked<'_>) {
    if asked.map.is_empty() || spot.package_number == 0 {
        return;
    }
    let code = asked.code_at(spot);
    let Some((instr, after)) = decode::<Spot>(code, usize::from(spot.place)) else {
        return;
    };
    match instr {
        Instr::Local(op) => push_local(text, spot, op, after, asked),
        Instr::Field(op) => push_field(text, spot, op, asked),
        _ => {}
    }
}

// A variable is there from the instruction on that follows the one which sets it first.
fn push_local(text: &mut Text, spot: Spot, op: LocalOp, after: usize, asked: &Asked<'_>) {
    let place = u32::from(spot.place);
    let next = u32::try_from(after).unwrap_or(place);
    let (local, place) = match op {
        LocalOp::Aload(local) | LocalOp::Sload(local) | LocalOp::Sinc(local, _) => (local, place),
        LocalOp::Astore(local) | LocalOp::Sstore(local) => (local, next),
    };
    let Ok(aid) = aid_text(spot.package_number, asked) else {
        text.give_up();
        return;
    };
    let mut digits = Buffer::new();
    let method = MethodPlace {
        aid: &aid,
        offset: digits.format(u32::from(spot.method)).as_bytes(),
    };
    if let Some(variable) = variable_at(asked.map, method, u32::from(local), place) {
        push_name(text, variable);
    }
}

fn push_name(text: &mut Text, named: Named<'_>) {
    text.push(b" ");
    text.push(named.name);
}

fn push_field(text: &mut Text, spot: Spot, op: FieldOp, asked: &Asked<'_>) {
    match asked.linked.target_at(spot.package_number, index_of(op)) {
        Some(Target::InstanceField { class, cell, .. }) => push_cell(text, *class, *cell, asked),
        Some(
            Target::StaticField {
                package_number,
                offset,
            },
        ) => push_static(text, *package_number, u32::from(*offset), asked),
        _ => {}
    }
}

// The index of the entry of the constant pool that names the field.
const fn index_of(op: FieldOp) -> u16 {
    match op {
        FieldOp::GetStatic(_, index)
        | FieldOp::PutStatic(_, index)
        | FieldOp::GetField(_, index)
        | FieldOp::PutField(_, index)
        | FieldOp::GetFieldThis(_, index)
        | FieldOp::PutFieldThis(_, index) => index,
    }
}

fn push_cell(text: &mut Text, class: ClassWord, cell: u32, asked: &Asked<'_>) {
    let Ok(aid) = aid_text((class.0 / 256) as u8, asked) else {
        text.give_up();
        return;
    };
    if let Some(member) = field_at(asked.map, &aid, u32::from(class.0 % 256), cell) {
        push_name(text, member.field);
    }
}

fn push_static(text: &mut Text, package_number: u8, offset: u32, asked: &Asked<'_>) {
    let Ok(aid) = aid_text(package_number, asked) else {
        text.give_up();
        return;
    };
    if let Some(member) = static_from(asked.map, &aid, offset) {
        if member.at == offset {
            push_name(text, member.field);
        }
    }
}
