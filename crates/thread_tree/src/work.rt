//! What is done to an item.
ghost use Rattle.std.specs.Prelude.{OnOk};

/// Work on items of type `T`, which may fail with an `E`.
pub trait Work<T, E> {
    // What it needs of an item.
    ghost fits: { Self → T → Type 0 };

    // What holds of an item before and after, whatever came of the work.
    ghost keeps: { T → T → Type 0 };

    // What holds of an item before and after work that didn't fail.
    ghost does: { T → T → Type 0 };

    /// Works on an item; `worker` is the number of the item.
    fn work(&self, worker: u32, item: &mut T) -> Result<(), E>
        requires { fits self.now item.old }
        ensures keeps { keeps item.old item.new }
        ensures does { OnOk result (does item.old item.new) };

    /// Whether the work on an item is not worth a thread.
    fn is_idle(&self, item: &T) -> bool;
}
