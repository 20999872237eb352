// Laws on what a store holds, and on its images.
ghost use Rattle.fl_store.specs.Laws.{NewImagesAreEmpty, StoresHold};

/// A store that is only read holds the same tables, and one that is mounted can be mounted again: on their pages alone it holds
/// what is left of its tables without what is in memory.
pub fn stores_hold()
    ensures { StoresHold }
{}

/// An image that was just made stands for empty tables.
pub fn new_images_are_empty()
    ensures { NewImagesAreEmpty }
{}
