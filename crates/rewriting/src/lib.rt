// The theory of evaluation by local strategies, and no code: what 01 calls evaluation, the words of demand 3 and the theorems that tie the two, and
// the evaluation as a machine. The definitions stand in specs/, the theorems in proofs/; what a test or a promise about evaluations needs is here.
// The machine in lent memory is the crate `machine`, the evaluator `evaluation`.
#![tactic(auto)]
