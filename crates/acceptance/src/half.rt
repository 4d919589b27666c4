//! A list, and the file of its picture.
use std::alloc::{AllocError, Global};

/// 65 by 65 pixels, and a white triangle over the upper left half of 64 by 64 of them and a little more.
pub(crate) const HALF: &str =
    r#"{"width":65,"height":65,"draws":[{"vertices":[[0,0,0,255,255,255,255],[16640,0,0,255,255,255,255],[0,16640,0,255,255,255,255]],"triangles":[[0,1,2]]}]}"#;

/// How many bytes the list has.
pub(crate) const LIST_BYTES: usize = 151;

/// How many bytes its file has: a header of 13, and three a pixel.
pub(crate) const FILE_BYTES: usize = 12_688;

/// Its file: row j has white pixels 0 to 63 - j, and the others are black.
pub(crate) fn half_file(alloc: Global) -> Result<Vec<u8>, AllocError> {
    let mut bytes = Vec::from_slice(alloc, b"P6\n65 65\n255\n")?;
    for row in 0..65u32 {
        for column in 0..65u32 {
            let level = if column + row <= 63 { 255 } else { 0 };
            bytes.extend_from_slice(&[level, level, level])?;
        }
    }
    Ok(bytes)
}
