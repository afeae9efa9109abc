//! Images of a store's slots, made of its parts and read by them; `entry_store` keeps them and tells a base by them.

ghost use Rattle.std.specs.Prelude.{◌≡◌, ◌<◌, ℕ, List, Option, Some, None, IsSome, IfOk, length};
ghost use Rattle.std.specs.Option.{option_map};
ghost use Rattle.entry_pool.specs.Contents.{find as find_in_pool};
ghost use Rattle.entry_pool.specs.declared.slot_handle.Handle.{Handle as AHandle};
ghost use Rattle.key_index.specs.Keys.{Entry as Keyed, entry_at as key_at, handle_at as handle_in_index};
ghost use Rattle.stick_pooled.specs.Album.{HasPicture, Picture, picture_at};
ghost use Rattle.stick_pooled.specs.Grid.{row_at};
ghost use Rattle.stick_pooled.specs.Parts.{IsPictured, base_from};
ghost use Rattle.stick_pooled.specs.Stock.{Held};
ghost use Rattle.stick_pooled.specs.declared.entry.Entry.{Entry as AnEntry};
ghost use Rattle.stored_data.specs.Words.{width};

use crate::entry::{Entry, Kept};
use crate::slot_images::{Image, Images};
use crate::value_rows::Rows;
use base_sequence::NoMemory;
use entry_pool::Pool;
use key_index::Index;
use stick_key::StickKey;

/// Keeps an image of a slot's entry, if nothing was kept of it.
pub(crate) fn keep_image(
    images: &mut Images,
    entries: &Pool<Entry>,
    index: &Index,
    rows: &Rows,
    slot: u32,
)
    requires inside { slot < length images.old.places }
    requires rowed { slot < length rows.now.rows }
    requires indexed { IsSome (key_at index.now slot) }
    requires pooled { (handle : AHandle) → handle_in_index index.now slot ≡ Some handle → IsSome (find_in_pool entries.now handle) }
    requires room { picture_at images.old slot ≡ None → 0 < images.old.room }
    requires wide { images.old.width ≡ width rows.now.columns }
    ensures { (handle : AHandle) (entry : AnEntry) → handle_in_index index.now slot ≡ Some handle → find_in_pool entries.now handle ≡ Some entry
        → IsPictured rows.now.columns (row_at rows.now slot) entry slot images.old images.new }
{
    if images.has(slot) {
        return;
    }
    let entry = *entries.value(index.handle_of(slot));
    let image = Image {
        stamp: entry.stamp,
        moment: entry.moment,
        key: None,
    };
    images.keep(slot, image, rows.row(slot));
}

/// The key of a slot's image, or else of the slot.
fn copy_key(image: &Image, index: &Index, slot: u32) -> Result<StickKey, NoMemory>
    requires { image.now.key ≡ None → IsSome (key_at index.now slot) }
    ensures given { (key : List ℕ) → image.now.key ≡ Some key → IfOk result (λ copy. copy ≡ key) }
    ensures own { (entry : Keyed) → image.now.key ≡ None → key_at index.now slot ≡ Some entry → IfOk result (λ copy. copy ≡ entry.key) }
{
    match &image.key {
        Some(key) => key.copy(),
        None => index.key_of(slot).copy(),
    }
}

/// What the image of a slot tells, where there is memory.
pub(crate) fn copy_image(
    images: &Images,
    index: &Index,
    rows: &Rows,
    slot: u32,
) -> Result<Kept, NoMemory>
    requires there { HasPicture images.now slot }
    requires keyed { (p : Picture) → picture_at images.now slot ≡ Some (Some p) → p.image.key ≡ None → IsSome (key_at index.now slot) }
    requires wide { images.now.width ≡ width rows.now.columns }
    ensures { (p : Picture) (live : Option Held) → picture_at images.now slot ≡ Some (Some p) → option_map (λ (e : Keyed). e.key) (key_at index.now slot) ≡ option_map (λ (held : Held). held.key) live
        → IfOk result (λ kept. Some kept ≡ base_from rows.now.columns (Some (Some p)) live) }
{
    let image = images.image(slot);
    let key = copy_key(image, index, slot)?;
    let values = rows.values_in(images.words(slot))?;
    Ok(Kept {
        key,
        stamp: image.stamp,
        moment: image.moment,
        values,
    })
}
