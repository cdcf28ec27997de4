//! The script of a page: a move that is clicked shows the position after it, and so do the arrow keys. Each move has
//! the FEN text of that position with it, so that the script knows no rules.

/// The script.
pub(crate) const SCRIPT: &str = "
'use strict';
let current = null;

// The place of a square, which counts two to a pair of columns.
function mark(square, piece, rows) {
  const row = Math.floor((square - 1) / (rows / 2));
  const use = document.createElementNS('http://www.w3.org/2000/svg', 'use');
  use.setAttribute('href', '#' + piece);
  use.setAttribute('x', 2 * ((square - 1) % (rows / 2)) + (1 - row % 2));
  use.setAttribute('y', row);
  return use;
}

// The board of a solution: that of its problem, or a copy beside it if the problem stands elsewhere.
function boardOf(solution) {
  const problem = document.getElementById(solution.dataset.of);
  if (problem.contains(solution)) return problem.querySelector('svg');
  let board = solution.querySelector('svg');
  if (!board) {
    board = problem.querySelector('svg').cloneNode(true);
    solution.prepend(board);
  }
  return board;
}

function show(board, fen) {
  const rows = board.viewBox.baseVal.width;
  const marks = [];
  for (const [side, text] of [['w', /:W([^:]*)/.exec(fen)[1]], ['b', /:B([^:]*)/.exec(fen)[1]]]) {
    for (const item of text.split(',').filter(Boolean)) {
      const king = item[0] === 'K';
      marks.push(mark(Number(king ? item.slice(1) : item), side + (king ? 'k' : 'm'), rows));
    }
  }
  board.dataset.start = board.dataset.start || board.getAttribute('aria-label');
  board.setAttribute('aria-label', fen);
  board.querySelector('g').replaceChildren(...marks);
}

function leave() {
  if (current) current.classList.remove('shown');
  current = null;
}

function choose(move) {
  leave();
  current = move;
  move.classList.add('shown');
  show(boardOf(move.closest('.solution')), move.dataset.fen);
}

// Back to where the problem begins.
function restart(solution) {
  const board = boardOf(solution);
  if (board.dataset.start) show(board, board.dataset.start);
  leave();
}

function nextMove() {
  if (!current) {
    const seen = [...document.querySelectorAll('.solution .move')];
    return seen.find((move) => move.getBoundingClientRect().bottom > 0) || seen[0];
  }
  const moves = [...current.closest('.solution').querySelectorAll('.move')];
  return moves[moves.indexOf(current) + 1];
}

document.documentElement.classList.add('live');
document.addEventListener('click', (event) => {
  const move = event.target.closest('.move');
  if (move) choose(move);
});
document.addEventListener('keydown', (event) => {
  if (event.key === 'ArrowRight') {
    const move = nextMove();
    if (move) choose(move);
  } else if (event.key === 'ArrowLeft' && current) {
    const solution = current.closest('.solution');
    const moves = [...solution.querySelectorAll('.move')];
    const place = moves.indexOf(current);
    if (place > 0) choose(moves[place - 1]);
    else restart(solution);
  } else {
    return;
  }
  event.preventDefault();
});
";
