//! The text of a product.

ghost use Rattle.std.specs.Prelude.{IfOk};
ghost use Rattle.product_file.specs.Verdict.{IsValid};
ghost use Rattle.file_upgrade.specs.Upgraded.{IsOfFormat2};

use crate::tree::file_tree;
use rate_bounds::Admitted;
use std::alloc::{AllocError, Global};

/// The product as the text of a product file of format 2: its verdict is a product that is equal to this one in every
/// field. The text may be longer than a file that the program reads. It fails only for want of memory.
pub fn upgrade(alloc: Global, adm: &Admitted) -> Result<Vec<u8>, AllocError>
    ensures verdict { IfOk result (λ text. IsValid text.items adm.now) }
    ensures format { IfOk result (λ text. IsOfFormat2 text.items) }
{
    let product = adm.product();
    match toml::table_to_string(alloc, &file_tree(alloc, product)?) {
        Ok(text) => Ok(text.into_bytes()),
        Err(_) => Err(AllocError),
    }
}
