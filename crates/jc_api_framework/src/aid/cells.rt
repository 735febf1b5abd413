//! The cells of an AID object.
ghost use Rattle.std.specs.Prelude.{◌≡◌, ◌<◌, ◌≤◌, length, slice_index};
ghost use Rattle.jc_api_framework.specs.Aid.Cells.{aid_cell, cells_of_aid, is_aid_length};

/// Whether this many bytes are an AID.
pub fn is_aid_length(count: u16) -> bool
    ensures { result ≡ is_aid_length count }
{
    5 <= count && count <= 16
}

// A byte, or zero after the last one.
fn byte_at(aid: &[u8], i: usize) -> u16
    ensures { result ≡ slice_index aid.now i }
{
    match aid.get(i) {
        Some(byte) => u16::from(*byte),
        None => 0,
    }
}

// Two bytes of an AID, with zeros after its last.
fn aid_cell(aid: &[u8], k: usize) -> u16
    requires { k < 8 }
    ensures { result ≡ aid_cell aid.now k }
{
    256 * byte_at(aid, 2 * k) + byte_at(aid, 2 * k + 1)
}

/// The cells of an AID object that holds these bytes: how many they are, and they two a cell.
pub fn cells_of_aid(aid: &[u8]) -> [u16; 9]
    requires { length aid.now ≤ 16 }
    ensures { result ≡ cells_of_aid aid.now }
{
    [
        aid.len() as u16,
        aid_cell(aid, 0),
        aid_cell(aid, 1),
        aid_cell(aid, 2),
        aid_cell(aid, 3),
        aid_cell(aid, 4),
        aid_cell(aid, 5),
        aid_cell(aid, 6),
        aid_cell(aid, 7),
    ]
}
