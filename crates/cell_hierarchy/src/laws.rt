ghost use Rattle.cell_hierarchy.specs.Along.{FlatShapesAreImages, FlatTextsAreAscii};
ghost use Rattle.cell_hierarchy.specs.Bounds.{FlatLabelsAreFew, FlatShapesAreFew};
ghost use Rattle.cell_hierarchy.specs.OneAnswer.{FlatListsAreUnique, FlatShapesAreUnique, FlatListsHaveShapes};
ghost use Rattle.cell_hierarchy.specs.OneAnswer.{FlattenFaultsAreUnique, FlattenFaultsExcludeShapes};
ghost use Rattle.cell_hierarchy.specs.OneAnswer.{FlattenFaultsExcludeLists};

/// A law for readers: a structure has one pair of flat lists.
pub fn flat_lists_are_unique()
    ensures { FlatListsAreUnique }
{}

/// A law for readers: a structure has one list of flat shapes.
pub fn flat_shapes_are_unique()
    ensures { FlatShapesAreUnique }
{}

/// A law for proofs: the shapes of flat lists are the flat shapes.
pub fn flat_lists_have_flat_shapes()
    ensures { FlatListsHaveShapes }
{}

/// A law for readers: a structure has one refusal, `Memory` aside.
pub fn flatten_faults_are_unique()
    ensures { FlattenFaultsAreUnique }
{}

/// A law for readers: a structure that is refused, `Memory` aside, has no flat shapes.
pub fn flatten_faults_exclude_shapes()
    ensures { FlattenFaultsExcludeShapes }
{}

/// A law for readers: a structure that is refused, `Memory` aside, has no flat lists.
pub fn flatten_faults_exclude_lists()
    ensures { FlattenFaultsExcludeLists }
{}

/// A law for proofs: flat lists have at most 2^22 labels, and a library's structure has at most 2^24 flat shapes.
pub fn flat_lists_are_few()
    ensures labels { FlatLabelsAreFew }
    ensures shapes { FlatShapesAreFew }
{}

/// A law for readers: the texts of a library's flat labels are ASCII.
pub fn flat_texts_are_ascii()
    ensures { FlatTextsAreAscii }
{}

/// A law for proofs: a shape that is moved along a chain step by step is its image by the composition of the places.
pub fn flat_shapes_are_images()
    ensures { FlatShapesAreImages }
{}
