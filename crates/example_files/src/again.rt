//! What was saved is read back.

ghost use Rattle.std.specs.Prelude.{◌≡◌, IfOk};
ghost use Rattle.std.specs.String.{string_bytes};
ghost use Rattle.saved_bytes.specs.Images.{IsImageAgain};

use crate::own::Hero;
use generational_core::{GenerationalBoxId, Location};
use saved_bytes::{
    DecodeError, Decoder, Encoder, ReadError, Saved, WriteError, read_image, write_image,
};
use std::alloc::Global;
use store_images::Image;

/// Why it can't be.
#[derive(Debug, Drop)]
pub enum NotAgain {
    /// It can't be written.
    Write(WriteError),
    /// It can't be read.
    Read(ReadError),
}

impl From<WriteError> for NotAgain {
    fn from(error: WriteError) -> NotAgain {
        NotAgain::Write(error)
    }
}

impl From<ReadError> for NotAgain {
    fn from(error: ReadError) -> NotAgain {
        NotAgain::Read(error)
    }
}

/// A value, written as bytes and read back: its form is the same.
pub fn value_again<T: Saved>(alloc: Global, value: &T) -> Result<T, DecodeError>
    ensures { IfOk result (λ again. T.form again ≡ T.form value.now) }
{
    let mut out = Encoder::new(alloc);
    value.encode(&mut out)?;
    let mut input = Decoder::new(alloc, out.bytes());
    T::decode(&mut input)
}

/// A number, written and read back, is the same number.
pub fn number_again(alloc: Global, number: u64) -> Result<u64, DecodeError>
    ensures { IfOk result (λ again. again ≡ number) }
{
    let again = value_again(alloc, &number)?;
    Ok(again)
}

/// An id, written and read back, is the same id.
pub fn id_again(alloc: Global, id: GenerationalBoxId) -> Result<GenerationalBoxId, DecodeError>
    ensures { IfOk result (λ again. again ≡ id) }
{
    let again = value_again(alloc, &id)?;
    Ok(again)
}

/// A hero, written and read back, has the same name and strength.
pub fn hero_again(alloc: Global, hero: &Hero) -> Result<Hero, DecodeError>
    ensures name { IfOk result (λ again. string_bytes again.name ≡ string_bytes hero.now.name) }
    ensures strength { IfOk result (λ again. again.strength ≡ hero.now.strength) }
{
    let again = value_again(alloc, hero)?;
    Ok(again)
}

/// An image, written as a file and read back: it is the same image, except for the locations whose files
/// aren't known.
pub fn saved_again<T: Saved>(
    alloc: Global,
    image: &Image<T>,
    files: &[&'static str],
    here: Location,
) -> Result<Image<T>, NotAgain>
    ensures { IfOk result (λ again. IsImageAgain files.now here T.form image.now again) }
{
    let mut file = Vec::new(alloc);
    if let Err(error) = write_image(alloc, image, &mut file) {
        return Err(NotAgain::Write(error));
    }
    let mut input = file.as_slice();
    match read_image(alloc, &mut input, files, here) {
        Ok(again) => Ok(again),
        Err(error) => Err(NotAgain::Read(error)),
    }
}
