// The packets, the acknowledgements and the pipe out to the camera, line by line with numbers written out, computed by the rules.
// There is no code here.
#![tactic(auto)]
