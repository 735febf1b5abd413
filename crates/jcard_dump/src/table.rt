//! What the cells of an image's objects are read by.
ghost use Rattle.std.specs.Prelude.{◌≡◌, IfOk};
ghost use Rattle.jc_objects.specs.Bounds.{IsBounded};
ghost use Rattle.jcard_dump.specs.Table.{IsLegendFor};

use crate::fault::ListFault;
use jc_objects::legend::{self, Legend};
use jc_packages::tables::table_of;
use jc_words::WordStore;
use std::alloc::{AllocError, Global};

/// What the cells of objects are read by; nothing more can be read where the table text is no table.
pub(crate) fn legend_of<S: WordStore>(alloc: Global, store: &S) -> Result<Legend, ListFault>
    requires { IsBounded (S.words store.now) }
    ensures { IsLegendFor (S.words store.now) result }
{
    let table = table_of(alloc, store)?;
    let words = words_of(alloc, store)?;
    let legend = legend::legend_of(alloc, table.platform(), words)?;
    Ok(legend)
}

// The words of a store.
fn words_of<S: WordStore>(alloc: Global, store: &S) -> Result<Vec<u16>, AllocError>
    ensures { IfOk result (λ words. words.items ≡ S.words store.now) }
{
    let count = store.size();
    let mut words = Vec::new(alloc);
    for i in 0..count {
        words.push(store.read(i))?;
    }
    Ok(words)
}
