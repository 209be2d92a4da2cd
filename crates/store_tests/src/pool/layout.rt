//! The bytes of one item.

ghost use Rattle.std.specs.Prelude.{◌≡◌, length};
ghost use Rattle.segments.specs.Items.{item_bytes, size_of_item};
ghost use Rattle.store_tests.specs.Row.{row, row_bytes};

/// The item with the key `a`, the value `x`, the flags 0, the cas number 1 and no read: its bytes
/// were written down by hand from the table of the layout. What a segment's memory holds is private
/// to the pool, whose contracts say that it is these bytes.
fn bytes_of_the_row()
    ensures bytes { item_bytes row ≡ row_bytes }
    ensures size { size_of_item row ≡ 32 }
{}

#[test]
fn row_of_the_layout() {
    bytes_of_the_row();
}
