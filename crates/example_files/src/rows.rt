//! Several things in one file: rows of any number of tables, and the image of their store.

ghost use Rattle.std.specs.Prelude.{◌≡◌, ℕ, List, IfOk};
ghost use Rattle.saved_bytes.specs.Files.{IsFileOf};
ghost use Rattle.saved_bytes.specs.Forms.{IsForm, spell};
ghost use Rattle.saved_bytes.specs.Images.{IsImageAgain};

use crate::again::NotAgain;
use generational_core::Location;
use saved_bytes::{Decoder, Encoder, ReadError, Saved, WriteError, read_image, write_image};
use std::alloc::Global;
use store_images::Image;

/// The bytes of rows, and after them the file of an image. The rows may be those of several tables: a pair
/// of lists is one value.
pub fn write_rows<R: Saved, T: Saved>(
    alloc: Global,
    rows: &R,
    image: &Image<T>,
) -> Result<Vec<u8>, WriteError>
    ensures { IfOk result (λ bytes. (file : List ℕ) × IsFileOf T.form image.now file
        × IsForm (R.form rows.now) × (bytes.items ≡ spell (R.form rows.now) file)) }
{
    let mut out = Encoder::new(alloc);
    rows.encode(&mut out)?;
    let mut file = Vec::from_slice(alloc, out.bytes())?;
    write_image(alloc, image, &mut file)?;
    Ok(file)
}

/// Reads rows, and the image after them.
pub fn read_rows<R: Saved, T: Saved>(
    alloc: Global,
    bytes: &[u8],
    files: &[&'static str],
    here: Location,
) -> Result<(R, Image<T>), ReadError>
    ensures { (rows : R) (image : Image T) (file : List ℕ) → IsForm (R.form rows) → IsFileOf T.form image file
        → bytes.now ≡ spell (R.form rows) file
        → IfOk result (λ both. (R.form both.0 ≡ R.form rows) × IsImageAgain files.now here T.form image both.1) }
{
    let mut input = Decoder::new(alloc, bytes);
    match R::decode(&mut input) {
        Ok(rows) => {
            let mut rest = input.rest();
            let image = read_image(alloc, &mut rest, files, here)?;
            Ok((rows, image))
        }
        Err(error) => Err(ReadError::Decode(error)),
    }
}

/// Rows and an image, written as one file and read back: the rows have the same form, and the image is the
/// same, except for the locations whose files aren't known.
pub fn rows_again<R: Saved, T: Saved>(
    alloc: Global,
    rows: &R,
    image: &Image<T>,
    files: &[&'static str],
    here: Location,
) -> Result<(R, Image<T>), NotAgain>
    ensures rows { IfOk result (λ both. R.form both.0 ≡ R.form rows.now) }
    ensures image { IfOk result (λ both. IsImageAgain files.now here T.form image.now both.1) }
{
    let bytes = write_rows(alloc, rows, image)?;
    let both = read_rows(alloc, bytes.as_slice(), files, here)?;
    Ok(both)
}
