//! Laws of images and their files.
ghost use Rattle.image_file.specs.ImageLaws.{ImagesHaveOneFile, FilesOfImagesAreFaultless, FaultlessFilesAreOfImages};

/// Two images with one file are one image; the file of an image has no fault; and each file without a fault is that
/// of an image.
pub fn images_and_files()
    ensures one { ImagesHaveOneFile }
    ensures faultless { FilesOfImagesAreFaultless }
    ensures whole { FaultlessFilesAreOfImages }
{}
