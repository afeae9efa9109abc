//! What slots had at a base, kept the first time that they change after it; `entry_store` keeps them.

ghost use Rattle.std.specs.Prelude.{◌≡◌, ◌+◌, ◌≤◌, ◌++◌, length, vec_len, vec_capacity};
ghost use Rattle.stick_pooled.specs.Album.{keyed_image};

use crate::value_rows::row_in;
use base_sequence::NoMemory;
use std::alloc::Global;
use std::marker::Model;
use stick_key::StickKey;

/// When a slot's entry was refreshed last before the base. Its key is here once the slot has it no more.
#[derive(Debug, Drop)]
pub struct Image {
    /// The number of the event that refreshed it.
    pub stamp: u64,
    /// The clock at that event, in ms.
    pub moment: u64,
    /// Its key, unless its slot still has it.
    pub key: Option<StickKey>,
}

// The place of a slot of which nothing was kept. Images are numbered from 1 on.
const NONE: u32 = 0;

// The place of a slot that was empty at the base.
const EMPTY: u32 = u32::MAX;

/// For each slot an image of what it had at the base, or that it was empty, or neither, as long as it hasn't changed. Only `new`
/// and `renew` take memory: the one four bytes for each slot, the other room for so many images.
#[derive(Drop)]
pub struct Images {
    places: Vec<u32>,
    images: Vec<Image>,
    words: Vec<u64>,
    width: usize,
    room: u32,
}

impl Model for Images {
    ghost use Rattle.std.specs.Prelude.{map, vec_capacity};
    ghost use Rattle.stick_pooled.specs.Album.{Album, AreSound, album, picture_of};

    ghost Value = { Album };

    ghost view = { λ i. album i.width i.room (map (picture_of i.images.items i.words.items i.width) i.places.items) };

    ghost invariant = { λ i. AreSound i.places.items i.images.items i.words.items i.width i.room (vec_capacity i.images) (vec_capacity i.words) };
}

// Adds words for which there is room.
fn push_words(words: &mut Vec<u64>, more: &[u64])
    requires { vec_len words.old + length more.now ≤ vec_capacity words.old }
    ensures items { words.new.items ≡ words.old.items ++ more.now }
    ensures room { vec_capacity words.new ≡ vec_capacity words.old }
{
    for word in more {
        words.push_reserved(*word);
    }
}

// An image gets a key, unless it has one.
fn give_key(image: &mut Image, key: StickKey)
    ensures { image.new ≡ keyed_image key image.old }
{
    if image.key.is_none() {
        image.key = Some(key);
    }
}

impl Images {
    ghost use Rattle.std.specs.Prelude.{◌≡◌, ◌≢◌, ◌<◌, ◌≤◌, ◌^◌, Some, None, IfOk, OnOk, OnErr, is_some, length};
    ghost use Rattle.stick_pooled.specs.Album.{HasPicture, Picture, is_empty, no_pictures, picture_at, with_empty, with_key, with_picture};

    /// No image of so many slots, and no room for any; an image has a row of so many words.
    pub fn new(alloc: Global, slots: u32, width: usize) -> Result<Images, NoMemory>
        ensures { IfOk result (λ images. images ≡ no_pictures slots width 0) }
    {
        Ok(Images {
            places: Vec::from_elem(alloc, NONE, slots as usize)?,
            images: Vec::new(alloc),
            words: Vec::new(alloc),
            width,
            room: 0,
        })
    }

    /// Forgets all that was kept, with room for so many images. It has the memory that it had, if that is enough, and else new
    /// memory. Where there is none, nothing changes.
    pub fn renew(&mut self, alloc: Global, room: u32) -> Result<(), NoMemory>
        requires { room ≤ 2 ^ 30 }
        ensures ok { OnOk result (self.new ≡ no_pictures (length self.old.places) self.old.width room) }
        ensures err { OnErr result (self.new ≡ self.old) }
    {
        let Some(all) = (room as usize).checked_mul(self.width) else {
            return Err(NoMemory);
        };
        if self.images.capacity() < room as usize || self.words.capacity() < all {
            let images = Vec::with_capacity(alloc, room as usize)?;
            self.words = Vec::with_capacity(alloc, all)?;
            self.images = images;
        }
        self.images.clear();
        self.words.clear();
        self.places.as_mut_slice().fill(NONE);
        self.room = room;
        Ok(())
    }

    /// Whether anything was kept of a slot.
    pub fn has(&self, slot: u32) -> bool
        requires { slot < length self.now.places }
        ensures { result ≡ is_some (picture_at self.now slot) }
    {
        self.places[slot as usize] != NONE
    }

    /// Whether it was kept of a slot that it was empty.
    pub fn has_empty(&self, slot: u32) -> bool
        requires { slot < length self.now.places }
        ensures { result ≡ is_empty (picture_at self.now slot) }
    {
        self.places[slot as usize] == EMPTY
    }

    /// The image of a slot that has one.
    pub fn image(&self, slot: u32) -> &Image
        requires { HasPicture self.now slot }
        ensures { (p : Picture) → picture_at self.now slot ≡ Some (Some p) → result.now ≡ p.image }
    {
        &self.images[self.places[slot as usize] as usize - 1]
    }

    /// The words of the image of a slot that has one.
    pub fn words(&self, slot: u32) -> &[u64]
        requires { HasPicture self.now slot }
        ensures words { (p : Picture) → picture_at self.now slot ≡ Some (Some p) → result.now ≡ p.words }
        ensures sized { length result.now ≡ self.now.width }
    {
        let at = self.places[slot as usize] as usize - 1;
        row_in(self.words.as_slice(), at, self.width)
    }

    /// Keeps that a slot was empty, if nothing was kept of it.
    pub fn keep_empty(&mut self, slot: u32)
        requires { slot < length self.old.places }
        ensures { self.new ≡ with_empty self.old slot }
    {
        if self.places[slot as usize] == NONE {
            self.places[slot as usize] = EMPTY;
        }
    }

    /// Keeps an image of a slot of which nothing was kept.
    pub fn keep(&mut self, slot: u32, image: Image, words: &[u64])
        requires inside { slot < length self.old.places }
        requires first { picture_at self.old slot ≡ None }
        requires room { 0 < self.old.room }
        requires sized { length words.now ≡ self.old.width }
        ensures { self.new ≡ with_picture self.old slot image words.now }
    {
        self.images.push_reserved(image);
        push_words(&mut self.words, words);
        self.places[slot as usize] = self.images.len() as u32;
        self.room -= 1;
    }

    /// A slot loses its key: its image gets it, if it has one and has none yet.
    pub fn keep_key(&mut self, slot: u32, key: StickKey)
        requires { slot < length self.old.places }
        ensures { self.new ≡ with_key self.old slot key }
    {
        let place = self.places[slot as usize] as usize;
        if place == 0 {
            return;
        }
        if place > self.images.len() {
            return;
        }
        give_key(&mut self.images[place - 1], key);
    }
}
