//! Laws of images for flat code.
ghost use Rattle.codegen.specs.EmittedImage.{ImagesMeanCode};
ghost use Rattle.codegen.specs.SoundImages.{ImagesAreSound, SizesFitWeights, StartFitsWeight};

/// The image of flat code that is lawful with some classes loose does on the ideal machine, with these classes loose, what the
/// code means: it comes to the same end with the same bytes, shared writes and counts, in at most as many steps as the weight
/// says; at each moment it has come to a front of what the code does, with at most one jump a step; and it is never refused.
pub fn images_mean_code()
    ensures meaning { ImagesMeanCode }
{}

/// The image of flat code that is lawful with shared and logged words loose is sound: on the ideal machine it is never
/// refused, and makes no byte access to an open address.
pub fn images_are_sound()
    ensures sound { ImagesAreSound }
{}

/// An operation has at most as many instructions as its weight says, and the start as many.
pub fn sizes_fit_weights()
    ensures sizes { SizesFitWeights }
    ensures start { StartFitsWeight }
{}
