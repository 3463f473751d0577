//! What holds of the tree of each product. The function says a law and returns at once.

ghost use Rattle.file_upgrade.specs.Laws.{FileTreesRead};

/// The tree of a product as a file of format 2 reads as that product.
pub fn file_trees_read()
    ensures { FileTreesRead }
{}
