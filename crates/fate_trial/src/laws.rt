// What holds of the nodes that are read.
ghost use Rattle.fate_trial.specs.Decoding.{NodesAreRead};

/// Where an image has nodes, they are the ones that are read.
pub fn nodes_are_those_of_the_image()
    ensures { NodesAreRead }
{}
